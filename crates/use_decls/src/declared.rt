ghost use Rattle.std.specs.Prelude.{◌≡◌, ◌++◌, [], Option, IfOk, OnOk, map};
ghost use Rattle.std.specs.List.{cons_option, filter_map};
ghost use Rattle.grammar_core.specs.Trees.{ParseTree};
ghost use Rattle.use_decls.specs.Names.{LexedText, name_at};

use crate::lexed::Lexed;
use class_decls::Name;
use std::alloc::{AllocError, Global};
use use_lists::Items;
use use_nodes::{NodeRef, Parts};

/// What a node of some rule declares.
pub(crate) trait Declared: Drop + Sized {
    ghost declared_by: { LexedText → ParseTree → Option Self };

    /// What a node declares; one of another rule declares nothing.
    fn of(alloc: Global, lexed: &Lexed<'_>, node: &NodeRef<'_>) -> Result<Option<Self>, AllocError>
        ensures { IfOk result (λ d. d ≡ declared_by lexed.now node.now) };
}

/// Adds an item, if there is one.
pub fn push_some<T: Drop>(item: Option<T>, items: &mut Vec<T>) -> Result<(), AllocError>
    ensures { OnOk result (items.new.items ≡ items.old.items ++ cons_option item []) }
{
    match item {
        None => Ok(()),
        Some(item) => {
            items.push(item)?;
            Ok(())
        }
    }
}

/// What nodes declare, in their order.
pub(crate) fn all_declared<T: Declared>(
    alloc: Global,
    lexed: &Lexed<'_>,
    nodes: Parts<'_>,
) -> Result<Items<T>, AllocError>
    ensures { IfOk result (λ items. items ≡ filter_map (T.declared_by lexed.now) nodes.entry) }
{
    let mut items = Vec::new(alloc);
    'nodes: for node in nodes {
        let item = T::of(alloc, lexed, &node)?;
        push_some(item, &mut items)?;
    }
    Ok(Items::from_vec(items))
}

/// The names that nodes write.
pub(crate) fn all_names(
    alloc: Global,
    lexed: &Lexed<'_>,
    nodes: Parts<'_>,
) -> Result<Items<Name>, AllocError>
    ensures { IfOk result (λ names. names ≡ map (name_at lexed.now) nodes.entry) }
{
    let mut names = Vec::new(alloc);
    'nodes: for node in nodes {
        let name = lexed.name_at(alloc, &node)?;
        names.push(name)?;
    }
    Ok(Items::from_vec(names))
}
