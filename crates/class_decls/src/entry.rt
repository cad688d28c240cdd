ghost use Rattle.std.specs.Prelude.{◌≡◌, IfOk, OnOk, ◌++◌, map};
ghost use Rattle.class_decls.specs.declared.decls.Name.{Name};
ghost use Rattle.class_decls.specs.Names.{entry, given};

use crate::Name;
use ocl_values::Text;
use std::alloc::{AllocError, Global};
use use_text::Place;

/// Where a name has to be the only one of its kind. Numbers count the declarations of a model from 0.
#[derive(Debug, Drop, PartialEq, Eq, PartialOrd, Ord)]
pub enum Space {
    /// Enumerations, classes, associations and the plain types.
    Types,
    /// The literals of an enumeration.
    Literals(usize),
    /// The parameters of a head.
    Parameters(usize),
    /// The invariants of a class.
    Invariants(Text),
    /// The contracts of a class's operation.
    Contracts(Text, Text),
    /// The parents of a class.
    Parents(usize),
    /// The operations that a class declares.
    Operations(usize),
}

/// A name in its space.
#[derive(Debug, Drop, PartialEq, Eq, PartialOrd, Ord)]
pub struct Entry {
    pub space: Space,
    pub text: Text,
    pub place: Place,
}

impl Space {
    /// The same space.
    pub(crate) fn copy(&self, alloc: Global) -> Result<Space, AllocError>
        ensures { IfOk result (λ space. space ≡ self.now) }
    {
        Ok(match self {
            Space::Types => Space::Types,
            Space::Literals(i) => Space::Literals(*i),
            Space::Parameters(i) => Space::Parameters(*i),
            Space::Invariants(class) => Space::Invariants(Text::copy_of(alloc, class.as_str())?),
            Space::Contracts(class, op) => Space::Contracts(
                Text::copy_of(alloc, class.as_str())?,
                Text::copy_of(alloc, op.as_str())?,
            ),
            Space::Parents(i) => Space::Parents(*i),
            Space::Operations(i) => Space::Operations(*i),
        })
    }
}

/// What is declared under a name.
pub trait Named {
    ghost name_of: { Self → Name };

    /// Its name.
    fn name(&self) -> &Name
        ensures { result.now ≡ name_of self.now };
}

impl Named for Name {
    ghost name_of = { λ n. n };

    fn name(&self) -> &Name {
        self
    }
}

/// A declared name in a space.
pub(crate) fn entry_of(alloc: Global, space: Space, name: &Name) -> Result<Entry, AllocError>
    ensures { IfOk result (λ e. e ≡ entry space name.now) }
{
    Ok(Entry {
        space,
        text: Text::copy_of(alloc, name.text.as_str())?,
        place: name.place,
    })
}

/// A name that is there before the text.
pub(crate) fn predeclared(alloc: Global, space: Space, text: &str) -> Result<Entry, AllocError>
    ensures { IfOk result (λ e. e ≡ given space text.now) }
{
    Ok(Entry {
        space,
        text: Text::copy_of(alloc, text)?,
        place: Place { line: 0, col: 0 },
    })
}

/// Adds the names of what is declared in a space.
pub(crate) fn add_entries<T: Named>(
    alloc: Global,
    space: &Space,
    items: &[T],
    names: &mut Vec<Entry>,
) -> Result<(), AllocError>
    ensures { OnOk result (names.new.items ≡ names.old.items ++ map (λ x. entry space.now (T.name_of x)) items.now) }
{
    'items: for item in items {
        let name = entry_of(alloc, space.copy(alloc)?, item.name())?;
        names.push(name)?;
    }
    Ok(())
}

/// Adds the names of what is declared.
pub fn add_texts<T: Named>(
    alloc: Global,
    items: &[T],
    texts: &mut Vec<Text>,
) -> Result<(), AllocError>
    ensures { OnOk result (texts.new.items ≡ texts.old.items ++ map (λ x. (T.name_of x).text) items.now) }
{
    'items: for item in items {
        let text = Text::copy_of(alloc, item.name().text.as_str())?;
        texts.push(text)?;
    }
    Ok(())
}
