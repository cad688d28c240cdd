ghost use Rattle.std.specs.Prelude.{◌≡◌, ◌<◌, false, length};
ghost use Rattle.model_check.specs.Adding.{Adds, each_added};
ghost use Rattle.model_check.specs.Walk.{attribute, attribute_value, derived_value, reading};

use crate::checked::Checked;
use crate::rules::value_rule;
use crate::seen::seen_in_class;
use crate::source::Source;
use class_model::{ClassNo, DerNo};
use ocl_rules::TypeFault;
use soil_scope::expression_at;
use use_nodes::{AttributeNode, NodeRef, Parts};

/// The body of a derived attribute.
#[tactic(auto, unfolding(crate::specs::Walk::derived_value))]
fn add_value(
    source: &Source<'_>,
    class: ClassNo,
    node: &NodeRef<'_>,
    number: DerNo,
    found: &mut Checked,
) -> Result<(), TypeFault>
    requires { number < length source.now.setting.model.now.derived }
    ensures { Adds (derived_value (reading source.now) class found.old node.now number) result found.new }
{
    let setting = &source.setting;
    let mut seen = seen_in_class(setting.alloc, class)?;
    let value = expression_at(setting, &mut seen.environment, false, node)?;
    let body = value_rule(setting.model, setting.model.der_type(number), value)?;
    found.set_derived(setting.alloc, number, body);
    Ok(())
}

/// An attribute that has a body.
#[tactic(auto, unfolding(crate::specs::Walk::attribute_value))]
fn add_body(
    source: &Source<'_>,
    class: ClassNo,
    attribute: &AttributeNode<'_>,
    body: &NodeRef<'_>,
    found: &mut Checked,
) -> Result<(), TypeFault>
    requires { class < length source.now.setting.model.now.classes }
    ensures { Adds (attribute_value (reading source.now) class found.old attribute.now body.now) result found.new }
{
    let setting = &source.setting;
    let name = setting.lexed.text_at(setting.alloc, &attribute.name)?;
    match setting.model.derived(class, name.as_str()) {
        None => Ok(()),
        Some(number) => add_value(source, class, body, number, found),
    }
}

#[tactic(auto, unfolding(crate::specs::Walk::attribute))]
fn add_attribute(
    source: &Source<'_>,
    class: ClassNo,
    node: &NodeRef<'_>,
    found: &mut Checked,
) -> Result<(), TypeFault>
    requires { class < length source.now.setting.model.now.classes }
    ensures { Adds (attribute (reading source.now) class found.old node.now) result found.new }
{
    let Some(attribute) = AttributeNode::of(node) else {
        return Ok(());
    };
    match &attribute.value {
        None => Ok(()),
        Some(body) => add_body(source, class, &attribute, body, found),
    }
}

/// The derived attributes of a class.
pub(crate) fn add_attributes(
    source: &Source<'_>,
    class: ClassNo,
    nodes: Parts<'_>,
    found: &mut Checked,
) -> Result<(), TypeFault>
    requires { class < length source.now.setting.model.now.classes }
    ensures { Adds (each_added (attribute (reading source.now) class) found.old nodes.entry) result found.new }
{
    'nodes: for node in nodes {
        add_attribute(source, class, &node, found)?;
    }
    Ok(())
}
