ghost use Rattle.std.specs.Prelude.{◌≡◌};
ghost use Rattle.ocl_syntax.specs.Plain.{may_pass, next_of, plain};

use use_nodes::{ChainNode, NodeRef};
use use_syntax::Rule;

/// Whether a node's rule may stand for a part alone.
fn may_pass(node: &NodeRef<'_>) -> bool
    ensures { result ≡ may_pass node.now }
{
    ChainNode::of(node).is_some()
        || node.is_rule(Rule::Unary)
        || node.is_rule(Rule::Postfix)
        || node.is_rule(Rule::Primary)
}

/// The node that a node passes on, if it does so.
fn next_of<'a>(node: &NodeRef<'a>) -> Option<NodeRef<'a>>
    ensures { result ≡ next_of node.now }
{
    let next = node.child(0)?;
    if node.len() == 1 && next.is_node() && may_pass(node) {
        Some(next)
    } else {
        None
    }
}

/// The node that is meant by one that only passes on what stands below it.
pub(crate) fn plain<'a>(node: &NodeRef<'a>) -> NodeRef<'a>
    ensures { result ≡ plain node.now }
{
    match next_of(node) {
        None => node.copy(),
        Some(next) => plain(&next),
    }
}
