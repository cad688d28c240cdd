ghost use Rattle.std.specs.Prelude.{◌≡◌, ◌+◌, ◌<◌, ◌≤◌, ◌^◌, [], IfOk, OnOk, length};
ghost use Rattle.std.specs.List.{filter_map};
ghost use Rattle.std.specs.Option.{option_copied, option_map_or};
ghost use Rattle.use_nodes.specs.ModelNodes.{params_node};
ghost use Rattle.class_model.specs.Parts.{op_params};
ghost use Rattle.soil_scope.specs.Variables.{with_fixed};
ghost use Rattle.model_check.specs.Seen.{also_named, param_name, param_names, seen_by_contract, seen_by_invariant, seen_by_query};
ghost use Rattle.model_check.specs.Seen.{seen_by_statements, seen_in_class, with_params, with_result};

use class_model::{ClassModel, ClassNo, OclType, OpNo, Parameter};
use ocl_values::Text;
use soil_scope::{Role, Variables};
use std::alloc::{AllocError, Global};
use use_decls::{Lexed, push_some};
use use_lists::Items;
use use_nodes::{HeadNode, NodeRef, ParamNode, ParamsNode, Parts};

/// An object of a class: `self`, whose properties may be named without it.
pub(crate) fn seen_in_class(alloc: Global, class: ClassNo) -> Result<Variables, AllocError>
    ensures { IfOk result (λ seen. seen ≡ seen_in_class class) }
{
    let mut seen = Variables::new(alloc);
    let name = Text::copy_of(alloc, "self")?;
    seen.push(Role::Fixed, Some(name), OclType::Class(class), true)?;
    Ok(seen)
}

/// The same object under another name, where a context gives it one.
fn also_named(
    alloc: Global,
    seen: &mut Variables,
    class: ClassNo,
    variable: Option<&str>,
) -> Result<(), AllocError>
    ensures { OnOk result (seen.new ≡ also_named seen.old class (option_copied variable.entry)) }
{
    match variable {
        None => Ok(()),
        Some(name) => {
            let name = Text::copy_of(alloc, name)?;
            seen.environment.push_name(name, OclType::Class(class), 0)
        }
    }
}

/// What an invariant of a class sees.
pub(crate) fn seen_by_invariant(
    alloc: Global,
    class: ClassNo,
    variable: Option<&str>,
) -> Result<Variables, AllocError>
    ensures { IfOk result (λ seen. seen ≡ seen_by_invariant class (option_copied variable.entry)) }
{
    let mut seen = seen_in_class(alloc, class)?;
    also_named(alloc, &mut seen, class, variable)?;
    Ok(seen)
}

fn param_name(
    alloc: Global,
    lexed: &Lexed<'_>,
    node: &NodeRef<'_>,
) -> Result<Option<Text>, AllocError>
    ensures { IfOk result (λ name. name ≡ param_name lexed.now node.now) }
{
    match ParamNode::of(node) {
        None => Ok(None),
        Some(param) => Ok(Some(lexed.text_at(alloc, &param.name)?)),
    }
}

fn names_of(alloc: Global, lexed: &Lexed<'_>, nodes: Parts<'_>) -> Result<Items<Text>, AllocError>
    ensures { IfOk result (λ names. names ≡ filter_map (param_name lexed.now) nodes.entry) }
{
    let mut names = Vec::new(alloc);
    'nodes: for node in nodes {
        let name = param_name(alloc, lexed, &node)?;
        push_some(name, &mut names)?;
    }
    Ok(Items::from_vec(names))
}

fn names_in(alloc: Global, lexed: &Lexed<'_>, node: &NodeRef<'_>) -> Result<Items<Text>, AllocError>
    ensures { IfOk result (λ names. names ≡ option_map_or (λ n. filter_map (param_name lexed.now) n.parameters) (params_node node.now) []) }
{
    match ParamsNode::of(node) {
        None => Ok(Items::new(alloc)),
        Some(params) => names_of(alloc, lexed, params.parameters),
    }
}

/// The names that a head gives its parameters.
pub(crate) fn param_names(
    alloc: Global,
    lexed: &Lexed<'_>,
    head: &HeadNode<'_>,
) -> Result<Items<Text>, AllocError>
    ensures { IfOk result (λ names. names ≡ param_names lexed.now head.now) }
{
    match &head.parameters {
        None => Ok(Items::new(alloc)),
        Some(params) => names_in(alloc, lexed, params),
    }
}

/// One more value that is never assigned.
fn push_fixed(
    alloc: Global,
    seen: &mut Variables,
    name: &Text,
    of_type: &OclType,
) -> Result<(), AllocError>
    requires { seen.old.environment.size + 1 < 2 ^ 32 }
    ensures { OnOk result (seen.new ≡ with_fixed seen.old name.now of_type.now) }
{
    let name = Text::copy_of(alloc, name.as_str())?;
    let of_type = of_type.try_copy(alloc)?;
    seen.push(Role::Fixed, Some(name), of_type, false)
}

/// Parameters under these names.
fn push_params(
    alloc: Global,
    seen: &mut Variables,
    names: &[Text],
    params: &[Parameter],
) -> Result<(), AllocError>
    requires { seen.old.environment.size + length params.now < 2 ^ 32 }
    ensures { OnOk result (seen.new ≡ with_params seen.old names.now params.now) }
{
    let mut names = names;
    'params: for param in params {
        let [name, more @ ..] = names else {
            return Ok(());
        };
        push_fixed(alloc, seen, name, &param.of_type)?;
        names = more;
    }
    Ok(())
}

/// What a query sees that is the body of an operation.
pub(crate) fn seen_by_query(
    alloc: Global,
    model: &ClassModel,
    op: OpNo,
    names: &[Text],
) -> Result<Variables, AllocError>
    requires op { op < length model.now.ops }
    requires few { length (op_params model.now op) ≤ 16 }
    ensures { IfOk result (λ seen. seen ≡ seen_by_query model.now op names.now) }
{
    let mut seen = seen_in_class(alloc, model.op_class(op))?;
    push_params(alloc, &mut seen, names, model.op_params(op))?;
    Ok(seen)
}

/// `result`, where an operation has one.
fn push_result(
    alloc: Global,
    seen: &mut Variables,
    result_type: Option<&OclType>,
) -> Result<(), AllocError>
    requires { seen.old.environment.size + 1 < 2 ^ 32 }
    ensures { OnOk result (seen.new ≡ with_result seen.old (option_copied result_type.entry)) }
{
    match result_type {
        None => Ok(()),
        Some(of_type) => {
            let name = Text::copy_of(alloc, "result")?;
            let of_type = of_type.try_copy(alloc)?;
            seen.push(Role::Local, Some(name), of_type, false)
        }
    }
}

/// What the statements see that are the body of an operation.
pub(crate) fn seen_by_statements(
    alloc: Global,
    model: &ClassModel,
    op: OpNo,
    names: &[Text],
) -> Result<Variables, AllocError>
    requires op { op < length model.now.ops }
    requires few { length (op_params model.now op) ≤ 16 }
    ensures { IfOk result (λ seen. seen ≡ seen_by_statements model.now op names.now) }
{
    let mut seen = seen_by_query(alloc, model, op, names)?;
    push_result(alloc, &mut seen, model.op_result(op))?;
    Ok(seen)
}

/// What a contract of an operation sees.
pub(crate) fn seen_by_contract(
    alloc: Global,
    model: &ClassModel,
    op: OpNo,
    names: &[Text],
    is_post: bool,
) -> Result<Variables, AllocError>
    requires op { op < length model.now.ops }
    requires few { length (op_params model.now op) ≤ 16 }
    ensures { IfOk result (λ seen. seen ≡ seen_by_contract model.now op names.now is_post) }
{
    if is_post {
        seen_by_statements(alloc, model, op, names)
    } else {
        seen_by_query(alloc, model, op, names)
    }
}
