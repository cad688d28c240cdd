ghost use Rattle.std.specs.Prelude.{◌≡◌, IfOk};
ghost use Rattle.std.specs.Option.{option_copied};
ghost use Rattle.use_decls.specs.Conds.{context_class};
ghost use Rattle.model_check.specs.Adding.{Adds, each_added};
ghost use Rattle.model_check.specs.Few.{HasFewParameters};
ghost use Rattle.model_check.specs.Walk.{constraints, context, context_of, head_contracts, invariants, reading, variable_of};

use crate::checked::Checked;
use crate::classes::class_named;
use crate::contracts::add_contracts;
use crate::invariants::add_invariants;
use crate::operations::declared;
use crate::seen::param_names;
use crate::source::Source;
use class_model::ClassNo;
use ocl_rules::TypeFault;
use ocl_values::Text;
use std::alloc::AllocError;
use use_nodes::{ConstraintsNode, ContextNode, HeadNode, NodeRef, Parts};

/// The class of a context.
fn context_class<'a>(node: &ContextNode<'a>) -> NodeRef<'a>
    ensures { result ≡ context_class node.now }
{
    match &node.class {
        None => node.name.copy(),
        Some(class) => class.copy(),
    }
}

/// The name beside `self` that a context gives the object of its class.
fn variable_of(source: &Source<'_>, node: &ContextNode<'_>) -> Result<Option<Text>, AllocError>
    ensures { IfOk result (λ name. name ≡ variable_of (reading source.now) node.now) }
{
    let setting = &source.setting;
    match &node.class {
        None => Ok(None),
        Some(_) => Ok(Some(setting.lexed.text_at(setting.alloc, &node.name)?)),
    }
}

fn text_of(name: &Option<Text>) -> Option<&str>
    ensures { option_copied result ≡ name.now }
{
    match name {
        None => None,
        Some(name) => Some(name.as_str()),
    }
}

/// The contracts of a context that names the head of an operation.
#[tactic(auto, unfolding(crate::specs::Walk::head_contracts))]
fn add_headed(
    source: &Source<'_>,
    class: ClassNo,
    node: ContextNode<'_>,
    head: &HeadNode<'_>,
    found: &mut Checked,
) -> Result<(), TypeFault>
    requires { HasFewParameters source.now.setting.model.now }
    ensures { Adds (head_contracts (reading source.now) class found.old node.entry head.now) result found.new }
{
    let setting = &source.setting;
    match declared(source, class, head)? {
        None => Ok(()),
        Some(op) => {
            let names = param_names(setting.alloc, setting.lexed, head)?;
            add_contracts(source, op, names.as_slice(), node.conditions, found)
        }
    }
}

/// The invariants of a context.
fn add_plain(
    source: &Source<'_>,
    class: ClassNo,
    node: ContextNode<'_>,
    found: &mut Checked,
) -> Result<(), TypeFault>
    ensures { Adds (invariants (reading source.now) class (variable_of (reading source.now) node.entry) found.old node.entry.invariants) result found.new }
{
    let variable = variable_of(source, &node)?;
    add_invariants(source, class, text_of(&variable), node.invariants, found)
}

/// A context of this class.
#[tactic(auto, unfolding(crate::specs::Walk::context_of))]
fn add_of_class(
    source: &Source<'_>,
    node: ContextNode<'_>,
    class: ClassNo,
    found: &mut Checked,
) -> Result<(), TypeFault>
    requires { HasFewParameters source.now.setting.model.now }
    ensures { Adds (context_of (reading source.now) found.old node.entry node.entry.head class) result found.new }
{
    match &node.head {
        None => add_plain(source, class, node, found),
        Some(head) => match HeadNode::of(head) {
            None => Ok(()),
            Some(head) => add_headed(source, class, node, &head, found),
        },
    }
}

#[tactic(auto, unfolding(crate::specs::Walk::context))]
fn add_context(
    source: &Source<'_>,
    node: &NodeRef<'_>,
    found: &mut Checked,
) -> Result<(), TypeFault>
    requires { HasFewParameters source.now.setting.model.now }
    ensures { Adds (context (reading source.now) found.old node.now) result found.new }
{
    let Some(context) = ContextNode::of(node) else {
        return Ok(());
    };
    let setting = &source.setting;
    let name = setting
        .lexed
        .text_at(setting.alloc, &context_class(&context))?;
    match class_named(setting.model, name.as_str()) {
        None => Ok(()),
        Some(class) => add_of_class(source, context, class, found),
    }
}

fn add_contexts(source: &Source<'_>, nodes: Parts<'_>, found: &mut Checked) -> Result<(), TypeFault>
    requires { HasFewParameters source.now.setting.model.now }
    ensures { Adds (each_added (context (reading source.now)) found.old nodes.entry) result found.new }
{
    'nodes: for node in nodes {
        add_context(source, &node, found)?;
    }
    Ok(())
}

/// What is checked of a declaration that is a list of contexts.
#[tactic(auto, unfolding(crate::specs::Walk::constraints))]
pub(crate) fn add_constraints(
    source: &Source<'_>,
    node: &NodeRef<'_>,
    found: &mut Checked,
) -> Result<(), TypeFault>
    requires { HasFewParameters source.now.setting.model.now }
    ensures { Adds (constraints (reading source.now) found.old node.now) result found.new }
{
    match ConstraintsNode::of(node) {
        None => Ok(()),
        Some(node) => add_contexts(source, node.contexts, found),
    }
}
