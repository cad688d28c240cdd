ghost use Rattle.std.specs.Prelude.{◌≡◌, ◌||◌, [], List, ℕ, IfOk, OnOk, map, not};
ghost use Rattle.std.specs.List.{list_any};
ghost use Rattle.class_decls.specs.Texts.{has_text, same_text};

use crate::Named;
use ocl_values::Text;
use std::alloc::{AllocError, Global};
use std::collections::HashSet;
use std::marker::Model;

/// Some names. Nothing asks for their order, and a look costs one comparison of names.
#[derive(Drop)]
pub struct NameSet<'a> {
    names: HashSet<&'a str>,
}

impl<'a> Model for NameSet<'a> {
    ghost use Rattle.std.specs.Prelude.{List, ℕ, map};
    ghost use Rattle.std.specs.HashSet.{keys};

    ghost Value = { List (List ℕ) };

    ghost view = { λ s. map (λ k. k.now) (keys s.names) };
}

impl<'a> NameSet<'a> {
    pub fn new(alloc: Global) -> NameSet<'a>
        ensures { result ≡ [] }
    {
        NameSet {
            names: HashSet::new(alloc),
        }
    }

    /// Adds a name. Whether it was new.
    pub fn add(&mut self, text: &'a str) -> Result<bool, AllocError>
        ensures new { IfOk result (λ new. new ≡ not (has_text self.old text.now)) }
        ensures names { OnOk result ((t : List ℕ) → has_text self.new t ≡ (has_text self.old t || same_text text.now t)) }
    {
        let new = self.names.insert(text)?;
        Ok(new)
    }

    pub fn contains(&self, text: &Text) -> bool
        ensures { result ≡ has_text self.now text.now }
    {
        self.names.contains(text.as_str())
    }

    /// Adds some names.
    pub(crate) fn add_texts(&mut self, texts: &[&'a str]) -> Result<(), AllocError>
        ensures { OnOk result ((t : List ℕ) → has_text self.new t ≡ (has_text self.old t || has_text (map (λ x. x.now) texts.now) t)) }
    {
        'texts: for text in texts {
            self.add(text)?;
        }
        Ok(())
    }

    /// Adds the names of what is declared.
    pub(crate) fn add_names<T: Named>(&mut self, items: &'a [T]) -> Result<(), AllocError>
        ensures { OnOk result ((t : List ℕ) → has_text self.new t
            ≡ (has_text self.old t || list_any (λ x. same_text (T.name_of x).text t) items.now)) }
    {
        'items: for item in items {
            self.add(item.name().text.as_str())?;
        }
        Ok(())
    }
}
