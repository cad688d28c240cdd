ghost use Rattle.std.specs.Prelude.{◌≡◌, ◌<◌, ◌^◌, IfOk, OnOk, length};
ghost use Rattle.std.specs.Option.{option_copied};
ghost use Rattle.class_model.specs.Parts.{op_result};
ghost use Rattle.ocl_rules.specs.Typings.{Tells};
ghost use Rattle.soil_scope.specs.Scenes.{Leaves, scene};
ghost use Rattle.ocl_syntax.specs.Expressions.{written};
ghost use Rattle.soil_types.specs.Aims.{aim_of};
ghost use Rattle.soil_types.specs.Assignments.{act_of, assign, assignment, call_result, fits, form_value, is_statement, new_local, new_value, put, retyped, right_side, store, store_if, target_for, value_of, value_of_expression, wanted_type};

use crate::objects::{NewObject, new_object, place_of};
use crate::targets::{Aim, Storage, aim_of, storage_of};
use class_model::{BodyKind, ClassModel, OclType, OpNo};
use ocl_core::{Act, Expr, Target};
use ocl_rules::{TypeFault, Typed, breaks_t};
use ocl_scope::Environment;
use ocl_syntax::{Written, written};
use ocl_values::Text;
use soil_scope::{Call, Callee, Role, Setting, Variables, called, callee_in, type_of};
use std::alloc::{AllocError, Global};
use use_nodes::{NewNode, NodeRef, RhsNode};
use use_text::Place;

/// Where a value comes from.
#[derive(Drop)]
pub(crate) enum Source {
    Value(Expr),
    New(NewObject),
    Call(Call),
}

/// What stands behind `:=`: a value, its type and the place of its first token. The call of an operation
/// without a result has no type.
#[derive(Drop)]
pub(crate) struct Assigned {
    pub(crate) source: Source,
    pub(crate) of_type: Option<OclType>,
    pub(crate) place: Place,
}

/// The value of an expression.
fn value_of(
    setting: &Setting<'_>,
    env: &mut Environment,
    expression: &Written,
) -> Result<Assigned, TypeFault>
    requires { env.old.size < 2 ^ 31 }
    ensures value { Tells (value_of (scene setting.now) env.old expression.now) result }
    ensures environment { env.new ≡ env.old }
{
    let Typed { expr, of_type } = type_of(setting, env, expression)?;
    Ok(Assigned {
        source: Source::Value(expr),
        of_type: Some(of_type),
        place: expression.first_place(),
    })
}

/// Whether a call of an operation is a statement where its value is stored: it is none where the
/// operation is a query.
fn is_statement(model: &ClassModel, op: OpNo) -> bool
    requires { op < length model.now.ops }
    ensures { result ≡ is_statement model.now op }
{
    match model.op_body_kind(op) {
        BodyKind::Query => false,
        BodyKind::Bare | BodyKind::Soil => true,
    }
}

/// The type of an operation's result, if it has one.
fn result_type(alloc: Global, model: &ClassModel, op: OpNo) -> Result<Option<OclType>, AllocError>
    requires { op < length model.now.ops }
    ensures { IfOk result (λ t. t ≡ op_result model.now op) }
{
    match model.op_result(op) {
        None => Ok(None),
        Some(of_type) => Ok(Some(of_type.try_copy(alloc)?)),
    }
}

/// The result of a call statement.
fn call_result(
    setting: &Setting<'_>,
    env: &mut Environment,
    expression: &Written,
    callee: Callee,
) -> Result<Assigned, TypeFault>
    requires room { env.old.size < 2 ^ 31 }
    requires within { callee.op < length setting.now.model.now.ops }
    ensures value { Tells (call_result (scene setting.now) env.old expression.now callee) result }
    ensures environment { env.new ≡ env.old }
{
    let op = callee.op;
    let call = called(setting, env, expression, callee)?;
    let of_type = result_type(setting.alloc, setting.model, op)?;
    Ok(Assigned {
        source: Source::Call(call),
        of_type,
        place: expression.first_place(),
    })
}

/// What an expression gives: the result of a call statement, or a value.
#[tactic(auto, unfolding(crate::specs::Assignments::value_of_expression))]
fn value_of_expression(
    setting: &Setting<'_>,
    env: &mut Environment,
    expression: &Written,
) -> Result<Assigned, TypeFault>
    requires { env.old.size < 2 ^ 31 }
    ensures value { Tells (value_of_expression (scene setting.now) env.old expression.now) result }
    ensures environment { env.new ≡ env.old }
{
    match callee_in(setting, env, expression)? {
        None => value_of(setting, env, expression),
        Some(callee) => {
            if is_statement(setting.model, callee.op) {
                call_result(setting, env, expression, callee)
            } else {
                value_of(setting, env, expression)
            }
        }
    }
}

/// A new object.
fn new_value(
    setting: &Setting<'_>,
    env: &mut Environment,
    place: Place,
    node: &NewNode<'_>,
) -> Result<Assigned, TypeFault>
    requires { env.old.size < 2 ^ 31 }
    ensures value { Tells (new_value (scene setting.now) env.old place node.now) result }
    ensures environment { env.new ≡ env.old }
{
    let made = new_object(setting, env, node)?;
    let class = made.class;
    Ok(Assigned {
        source: Source::New(made),
        of_type: Some(OclType::Class(class)),
        place,
    })
}

/// The form that stands behind `:=`.
fn form_value(
    setting: &Setting<'_>,
    env: &mut Environment,
    node: &NodeRef<'_>,
) -> Result<Assigned, TypeFault>
    requires { env.old.size < 2 ^ 31 }
    ensures value { Tells (form_value (scene setting.now) env.old node.now) result }
    ensures environment { env.new ≡ env.old }
{
    match NewNode::of(node) {
        Some(new) => new_value(setting, env, place_of(setting, node), &new),
        None => {
            let expression = written(setting.alloc, setting.lexed, node)?;
            value_of_expression(setting, env, &expression)
        }
    }
}

/// What stands behind `:=`.
#[tactic(auto, unfolding(crate::specs::Assignments::right_side))]
fn right_side(
    setting: &Setting<'_>,
    env: &mut Environment,
    node: &NodeRef<'_>,
) -> Result<Assigned, TypeFault>
    requires { env.old.size < 2 ^ 31 }
    ensures value { Tells (right_side (scene setting.now) env.old node.now) result }
    ensures environment { env.new ≡ env.old }
{
    match RhsNode::of(node) {
        None => form_value(setting, env, node),
        Some(right) => form_value(setting, env, &right.form),
    }
}

/// The type that stored values have, where it is not that of the value.
fn wanted_type(storage: &Storage) -> Option<&OclType>
    ensures { option_copied result ≡ wanted_type storage.now }
{
    match storage {
        Storage::Local(_, of_type)
        | Storage::Shell(_, of_type)
        | Storage::Attribute(_, _, of_type) => Some(of_type),
        Storage::NewLocal(_) | Storage::RetypedShell(_) | Storage::Object(_) => None,
    }
}

fn fits(model: &ClassModel, storage: &Storage, of_type: &OclType) -> bool
    ensures { result ≡ fits model.now storage.now of_type.now }
{
    match wanted_type(storage) {
        None => true,
        Some(wanted) => model.conforms(of_type, wanted),
    }
}

/// From now on a name of the shell is a variable of a type.
fn retype(
    setting: &Setting<'_>,
    variables: &mut Variables,
    name: &str,
    of_type: &OclType,
) -> Result<(), AllocError>
    ensures { OnOk result (variables.new ≡ retyped (scene setting.now) variables.old name.now of_type.now) }
{
    match setting.shell.slot_of(name) {
        None => Ok(()),
        Some(slot) => {
            let text = Text::copy_of(setting.alloc, name)?;
            let of_type = of_type.try_copy(setting.alloc)?;
            variables.stands_for(setting.alloc, slot, text, of_type, Role::Shell);
            Ok(())
        }
    }
}

/// A local variable more, the innermost.
fn add_local(variables: &mut Variables, name: Text, of_type: OclType) -> Result<Target, AllocError>
    requires { variables.old.environment.size < 2 ^ 31 }
    ensures { IfOk result (λ t. (t, variables.new) ≡ (new_local variables.old name of_type)) }
{
    let number = variables.environment.size();
    variables.push(Role::Local, Some(name), of_type, false)?;
    Ok(Target::Local(number))
}

/// The target of an assignment, and the variables behind it.
fn put(
    setting: &Setting<'_>,
    variables: &mut Variables,
    storage: Storage,
    of_type: OclType,
) -> Result<Target, AllocError>
    requires { variables.old.environment.size < 2 ^ 31 }
    ensures { IfOk result (λ t. (t, variables.new) ≡ (put (scene setting.now) variables.old storage of_type)) }
{
    match storage {
        Storage::Local(number, _) => Ok(Target::Local(number)),
        Storage::NewLocal(name) => add_local(variables, name, of_type),
        Storage::Shell(name, kept) => Ok(Target::Shell(name, kept)),
        Storage::RetypedShell(name) => {
            retype(setting, variables, name.as_str(), &of_type)?;
            Ok(Target::Shell(name, of_type))
        }
        Storage::Object(name) => Ok(Target::Shell(name, of_type)),
        Storage::Attribute(source, attr, _) => Ok(Target::Attr(source, attr)),
    }
}

/// What an assignment does.
fn act_of(source: Source, target: Target) -> Act
    ensures { result ≡ act_of source target }
{
    match source {
        Source::Value(value) => Act::Assign { target, value },
        Source::New(made) => {
            let NewObject { class, name } = made;
            Act::New {
                class,
                name,
                target: Some(target),
            }
        }
        Source::Call(call) => {
            let Call { receiver, op, args } = call;
            Act::Call {
                receiver,
                op,
                args,
                target: Some(target),
            }
        }
    }
}

/// Where a value of a type is stored: T5 where the type is not that of what stores it.
fn target_for(
    setting: &Setting<'_>,
    variables: &mut Variables,
    storage: Storage,
    of_type: OclType,
    place: Place,
) -> Result<Target, TypeFault>
    requires { variables.old.environment.size < 2 ^ 31 }
    ensures { Leaves (target_for (scene setting.now) variables.old storage of_type place) result variables.new }
{
    if !fits(setting.model, &storage, &of_type) {
        return Err(breaks_t(5, place));
    }
    Ok(put(setting, variables, storage, of_type)?)
}

/// A value that has a type is stored.
fn store(
    setting: &Setting<'_>,
    variables: &mut Variables,
    storage: Storage,
    source: Source,
    of_type: OclType,
    place: Place,
) -> Result<Act, TypeFault>
    requires { variables.old.environment.size < 2 ^ 31 }
    ensures { Leaves (store (scene setting.now) variables.old storage source of_type place) result variables.new }
{
    let target = target_for(setting, variables, storage, of_type, place)?;
    Ok(act_of(source, target))
}

/// T12 of a call without a result, at the statement, or else the value is stored.
fn store_if(
    setting: &Setting<'_>,
    variables: &mut Variables,
    place: Place,
    storage: Storage,
    source: Source,
    of_type: Option<OclType>,
    value_place: Place,
) -> Result<Act, TypeFault>
    requires { variables.old.environment.size < 2 ^ 31 }
    ensures { Leaves (store_if (scene setting.now) variables.old place storage source of_type value_place) result variables.new }
{
    match of_type {
        None => Err(breaks_t(12, place)),
        Some(of_type) => store(setting, variables, storage, source, of_type, value_place),
    }
}

/// The rules of an assignment: T11, then T12 of a call without a result, both at the statement, and T5 at
/// the value.
fn assignment(
    setting: &Setting<'_>,
    is_outermost: bool,
    variables: &mut Variables,
    place: Place,
    aim: Aim,
    value: Assigned,
) -> Result<Act, TypeFault>
    requires { variables.old.environment.size < 2 ^ 31 }
    ensures { Leaves (assignment (scene setting.now) is_outermost variables.old place aim value) result variables.new }
{
    let storage = storage_of(setting.alloc, is_outermost, place, variables, aim)?;
    let Assigned {
        source,
        of_type,
        place: value_place,
    } = value;
    store_if(
        setting,
        variables,
        place,
        storage,
        source,
        of_type,
        value_place,
    )
}

/// What stands before `:=`.
fn aimed(
    setting: &Setting<'_>,
    env: &mut Environment,
    target: &NodeRef<'_>,
) -> Result<Aim, TypeFault>
    requires { env.old.size < 2 ^ 31 }
    ensures value { Tells (aim_of (scene setting.now) env.old (written setting.now.lexed.now target.now)) result }
    ensures environment { env.new ≡ env.old }
{
    let expression = written(setting.alloc, setting.lexed, target)?;
    aim_of(setting, env, &expression)
}

/// `target := value`, and the same behind `set`.
#[tactic(auto, unfolding(crate::specs::Assignments::assign))]
pub(crate) fn assign(
    setting: &Setting<'_>,
    is_outermost: bool,
    variables: &mut Variables,
    place: Place,
    target: &NodeRef<'_>,
    value: &NodeRef<'_>,
) -> Result<Act, TypeFault>
    requires { variables.old.environment.size < 2 ^ 31 }
    ensures { Leaves (assign (scene setting.now) is_outermost variables.old place target.now value.now) result variables.new }
{
    let aim = aimed(setting, &mut variables.environment, target)?;
    let value = right_side(setting, &mut variables.environment, value)?;
    assignment(setting, is_outermost, variables, place, aim, value)
}
