ghost use Rattle.std.specs.Prelude.{◌≡◌};
ghost use Rattle.soil_scope.specs.Scenes.{first_token};

use use_nodes::NodeRef;

/// The token that a node begins with.
#[tactic(auto, using(crate::proofs::Firsts::first_step, crate::proofs::Firsts::less_deep, crate::proofs::Firsts::first_last))]
pub fn first_leaf<'a>(node: &NodeRef<'a>) -> NodeRef<'a>
    ensures { result ≡ first_token node.now }
{
    let mut leaf = node.copy();
    'down: while let Some(first) = leaf.child(0) {
        leaf = first;
    }
    leaf
}
