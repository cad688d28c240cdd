ghost use Rattle.std.specs.Prelude.{◌≡◌, ◌<◌, IfSome, length};
ghost use Rattle.class_model.specs.Features.{class_named};
ghost use Rattle.model_check.specs.Adding.{Adds};
ghost use Rattle.model_check.specs.Few.{HasFewParameters};
ghost use Rattle.model_check.specs.Walk.{class, class_of, reading};

use crate::attributes::add_attributes;
use crate::checked::Checked;
use crate::invariants::add_invariants;
use crate::operations::add_operations;
use crate::source::Source;
use class_model::{ClassModel, ClassNo};
use ocl_rules::TypeFault;
use use_nodes::{ClassNode, NodeRef};

/// The class of a name.
#[tactic(auto, using(crate::proofs::Named::class_there))]
pub(crate) fn class_named(model: &ClassModel, name: &str) -> Option<ClassNo>
    ensures value { result ≡ class_named model.now name.now }
    ensures within { IfSome result (λ class. class < length model.now.classes) }
{
    model.class_by_name(name)
}

/// A class: its derived attributes, its operations and its invariants.
#[tactic(auto, unfolding(crate::specs::Walk::class_of))]
fn add_declared(
    source: &Source<'_>,
    node: ClassNode<'_>,
    class: ClassNo,
    found: &mut Checked,
) -> Result<(), TypeFault>
    requires class { class < length source.now.setting.model.now.classes }
    requires few { HasFewParameters source.now.setting.model.now }
    ensures { Adds (class_of (reading source.now) found.old node.entry class) result found.new }
{
    let ClassNode {
        attributes,
        operations,
        invariants,
        ..
    } = node;
    add_attributes(source, class, attributes, found)?;
    add_operations(source, class, operations, found)?;
    add_invariants(source, class, None, invariants, found)
}

/// What is checked of a declaration that is a class.
#[tactic(auto, unfolding(crate::specs::Walk::class))]
pub(crate) fn add_class(
    source: &Source<'_>,
    node: &NodeRef<'_>,
    found: &mut Checked,
) -> Result<(), TypeFault>
    requires { HasFewParameters source.now.setting.model.now }
    ensures { Adds (class (reading source.now) found.old node.now) result found.new }
{
    let Some(node) = ClassNode::of(node) else {
        return Ok(());
    };
    let setting = &source.setting;
    let name = setting.lexed.text_at(setting.alloc, &node.name)?;
    match class_named(setting.model, name.as_str()) {
        None => Ok(()),
        Some(class) => add_declared(source, node, class, found),
    }
}
