ghost use Rattle.std.specs.Prelude.{◌≡◌, IfOk};
ghost use Rattle.ocl_syntax.specs.Layers.{items_before};

use std::alloc::{AllocError, Global};
use use_lists::Items;
use use_nodes::{ArgsNode, NodeRef, Parts};

/// The nodes that are left.
pub(crate) fn collected<'a>(
    alloc: Global,
    nodes: Parts<'a>,
) -> Result<Items<NodeRef<'a>>, AllocError>
    ensures { IfOk result (λ v. v ≡ nodes.entry) }
{
    let mut found = Vec::new(alloc);
    'nodes: for node in nodes {
        found.push(node)?;
    }
    Ok(Items::from_vec(found))
}

/// The items of arguments before `;`.
pub(crate) fn items_before<'a>(
    alloc: Global,
    node: &ArgsNode<'a>,
) -> Result<Items<NodeRef<'a>>, AllocError>
    ensures { IfOk result (λ v. v ≡ items_before node.now) }
{
    let mut items = collected(alloc, node.items.copy())?.into_vec();
    let count = items.len();
    items.truncate(count.saturating_sub(usize::from(node.accumulator.is_some())));
    Ok(Items::from_vec(items))
}
