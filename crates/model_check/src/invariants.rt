ghost use Rattle.std.specs.Prelude.{◌≡◌, false};
ghost use Rattle.std.specs.Option.{option_copied};
ghost use Rattle.model_check.specs.Adding.{Adds};
ghost use Rattle.model_check.specs.Walk.{invariant, invariant_of, invariants, reading};

use crate::checked::Checked;
use crate::rules::condition_rule;
use crate::seen::seen_by_invariant;
use crate::source::Source;
use class_model::ClassNo;
use ocl_core::Invariant;
use ocl_rules::TypeFault;
use ocl_values::Text;
use soil_scope::expression_at;
use use_nodes::{InvNode, NodeRef, Parts};

/// An invariant of this name.
#[tactic(auto, unfolding(crate::specs::Walk::invariant_of))]
fn add_named(
    source: &Source<'_>,
    class: ClassNo,
    variable: Option<&str>,
    node: &NodeRef<'_>,
    name: &Text,
    found: &mut Checked,
) -> Result<(), TypeFault>
    ensures { Adds (invariant_of (reading source.now) class (option_copied variable.entry) found.old node.now name.now) result found.new }
{
    let setting = &source.setting;
    let mut seen = seen_by_invariant(setting.alloc, class, variable)?;
    let condition = expression_at(setting, &mut seen.environment, false, node)?;
    let expr = condition_rule(setting.model, condition)?;
    let name = Text::copy_of(setting.alloc, name.as_str())?;
    found.add_invariant(Invariant { class, name, expr })?;
    Ok(())
}

#[tactic(auto, unfolding(crate::specs::Walk::invariant))]
fn add_invariant(
    source: &Source<'_>,
    class: ClassNo,
    variable: Option<&str>,
    node: &NodeRef<'_>,
    found: &mut Checked,
) -> Result<(), TypeFault>
    ensures { Adds (invariant (reading source.now) class (option_copied variable.entry) found.old node.now) result found.new }
{
    let Some(inv) = InvNode::of(node) else {
        return Ok(());
    };
    match found.next_name(source.names) {
        None => Ok(()),
        Some(name) => add_named(source, class, variable, &inv.condition, name, found),
    }
}

/// The invariants of a class, the object of which may have a name beside `self`.
pub(crate) fn add_invariants(
    source: &Source<'_>,
    class: ClassNo,
    variable: Option<&str>,
    nodes: Parts<'_>,
    found: &mut Checked,
) -> Result<(), TypeFault>
    ensures { Adds (invariants (reading source.now) class (option_copied variable.entry) found.old nodes.entry) result found.new }
{
    'nodes: for node in nodes {
        add_invariant(source, class, variable, &node, found)?;
    }
    Ok(())
}
