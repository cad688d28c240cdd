ghost use Rattle.std.specs.Prelude.{◌≡◌, ◌<◌, ◌≤◌, IfOk, IfSome, false, length};
ghost use Rattle.class_model.specs.Parts.{op_params};
ghost use Rattle.model_check.specs.Adding.{Adds, each_added, where_there};
ghost use Rattle.model_check.specs.Few.{HasFewParameters};
ghost use Rattle.model_check.specs.Walk.{body_of, declared, oper, operation_at, operation_of, query, reading, statements};
ghost use Rattle.std.specs.Option.{option_copied};

use crate::checked::Checked;
use crate::contracts::add_contracts;
use crate::rules::result_rule;
use crate::seen::{param_names, seen_by_query, seen_by_statements};
use crate::source::Source;
use class_model::{ClassNo, OclType, OpNo};
use ocl_core::OpBody;
use ocl_rules::TypeFault;
use ocl_values::Text;
use soil_scope::{expression_at, operation_of_type};
use soil_types::body_statements;
use std::alloc::AllocError;
use use_nodes::{HeadNode, NodeRef, OperNode, Parts};

/// The body of an operation that is a query.
#[tactic(auto, unfolding(crate::specs::Walk::query))]
fn add_query(
    source: &Source<'_>,
    op: OpNo,
    names: &[Text],
    node: &NodeRef<'_>,
    found: &mut Checked,
) -> Result<(), TypeFault>
    requires op { op < length source.now.setting.model.now.ops }
    requires few { length (op_params source.now.setting.model.now op) ≤ 16 }
    ensures { Adds (query (reading source.now) op names.now found.old node.now) result found.new }
{
    let setting = &source.setting;
    let mut seen = seen_by_query(setting.alloc, setting.model, op, names)?;
    let value = expression_at(setting, &mut seen.environment, false, node)?;
    let body = result_rule(setting.model, setting.model.op_result(op), value)?;
    found.set_body(setting.alloc, op, OpBody::Query(body));
    Ok(())
}

fn add_query_if(
    source: &Source<'_>,
    op: OpNo,
    names: &[Text],
    node: Option<&NodeRef<'_>>,
    found: &mut Checked,
) -> Result<(), TypeFault>
    requires op { op < length source.now.setting.model.now.ops }
    requires few { length (op_params source.now.setting.model.now op) ≤ 16 }
    ensures { Adds (where_there (option_copied node.entry) found.old (query (reading source.now) op names.now found.old)) result found.new }
{
    match node {
        None => Ok(()),
        Some(node) => add_query(source, op, names, node, found),
    }
}

/// The body of an operation that has statements.
#[tactic(auto, unfolding(crate::specs::Walk::statements))]
fn add_statements(
    source: &Source<'_>,
    op: OpNo,
    names: &[Text],
    node: &NodeRef<'_>,
    found: &mut Checked,
) -> Result<(), TypeFault>
    requires op { op < length source.now.setting.model.now.ops }
    requires few { length (op_params source.now.setting.model.now op) ≤ 16 }
    ensures { Adds (statements (reading source.now) op names.now found.old node.now) result found.new }
{
    let setting = &source.setting;
    let seen = seen_by_statements(setting.alloc, setting.model, op, names)?;
    let body = body_statements(setting, seen, node)?;
    found.set_body(setting.alloc, op, OpBody::Soil(body));
    Ok(())
}

fn add_statements_if(
    source: &Source<'_>,
    op: OpNo,
    names: &[Text],
    node: Option<&NodeRef<'_>>,
    found: &mut Checked,
) -> Result<(), TypeFault>
    requires op { op < length source.now.setting.model.now.ops }
    requires few { length (op_params source.now.setting.model.now op) ≤ 16 }
    ensures { Adds (where_there (option_copied node.entry) found.old (statements (reading source.now) op names.now found.old)) result found.new }
{
    match node {
        None => Ok(()),
        Some(node) => add_statements(source, op, names, node, found),
    }
}

/// The body of an operation, if it has one.
#[tactic(auto, unfolding(crate::specs::Walk::body_of))]
fn add_body(
    source: &Source<'_>,
    op: OpNo,
    names: &[Text],
    oper: &OperNode<'_>,
    found: &mut Checked,
) -> Result<(), TypeFault>
    requires op { op < length source.now.setting.model.now.ops }
    requires few { length (op_params source.now.setting.model.now op) ≤ 16 }
    ensures { Adds (body_of (reading source.now) op names.now found.old oper.now) result found.new }
{
    add_query_if(source, op, names, oper.query.as_ref(), found)?;
    add_statements_if(source, op, names, oper.statements.as_ref(), found)
}

/// An operation: its body, and the contracts behind it.
#[tactic(auto, unfolding(crate::specs::Walk::operation_of))]
fn add_declared(
    source: &Source<'_>,
    oper: OperNode<'_>,
    head: &HeadNode<'_>,
    op: OpNo,
    found: &mut Checked,
) -> Result<(), TypeFault>
    requires op { op < length source.now.setting.model.now.ops }
    requires few { length (op_params source.now.setting.model.now op) ≤ 16 }
    ensures { Adds (operation_of (reading source.now) found.old oper.entry head.now op) result found.new }
{
    let setting = &source.setting;
    let names = param_names(setting.alloc, setting.lexed, head)?;
    add_body(source, op, names.as_slice(), &oper, found)?;
    add_contracts(source, op, names.as_slice(), oper.conditions, found)
}

/// The declaration of the operation of a head in a class.
pub(crate) fn declared(
    source: &Source<'_>,
    class: ClassNo,
    head: &HeadNode<'_>,
) -> Result<Option<OpNo>, AllocError>
    ensures value { IfOk result (λ op. op ≡ declared (reading source.now) class head.now) }
    ensures within { IfOk result (λ op. IfSome op (λ o. o < length source.now.setting.model.now.ops)) }
{
    let setting = &source.setting;
    let name = setting.lexed.text_at(setting.alloc, &head.name)?;
    Ok(operation_of_type(setting.model, &OclType::Class(class), name.as_str()))
}

#[tactic(auto, unfolding(crate::specs::Walk::operation_at))]
fn add_headed(
    source: &Source<'_>,
    class: ClassNo,
    oper: OperNode<'_>,
    head: &HeadNode<'_>,
    found: &mut Checked,
) -> Result<(), TypeFault>
    requires { HasFewParameters source.now.setting.model.now }
    ensures { Adds (operation_at (reading source.now) class found.old oper.entry head.now) result found.new }
{
    match declared(source, class, head)? {
        None => Ok(()),
        Some(op) => add_declared(source, oper, head, op, found),
    }
}

#[tactic(auto, unfolding(crate::specs::Walk::oper))]
fn add_operation(
    source: &Source<'_>,
    class: ClassNo,
    node: &NodeRef<'_>,
    found: &mut Checked,
) -> Result<(), TypeFault>
    requires { HasFewParameters source.now.setting.model.now }
    ensures { Adds (oper (reading source.now) class found.old node.now) result found.new }
{
    let Some(oper) = OperNode::of(node) else {
        return Ok(());
    };
    match HeadNode::of(&oper.head) {
        None => Ok(()),
        Some(head) => add_headed(source, class, oper, &head, found),
    }
}

/// The operations of a class.
pub(crate) fn add_operations(
    source: &Source<'_>,
    class: ClassNo,
    nodes: Parts<'_>,
    found: &mut Checked,
) -> Result<(), TypeFault>
    requires { HasFewParameters source.now.setting.model.now }
    ensures { Adds (each_added (oper (reading source.now) class) found.old nodes.entry) result found.new }
{
    'nodes: for node in nodes {
        add_operation(source, class, &node, found)?;
    }
    Ok(())
}
