ghost use Rattle.std.specs.Prelude.{◌≡◌, ◌<◌, ◌≤◌, ◌^◌, IfOk, IfSome, None, length};
ghost use Rattle.std.specs.Option.{option_copied};
ghost use Rattle.class_model.specs.Features.{operation};
ghost use Rattle.ocl_rules.specs.Properties.{operation_of_type};
ghost use Rattle.ocl_rules.specs.Typings.{Tells};
ghost use Rattle.ocl_scope.specs.Names.{variable};
ghost use Rattle.soil_scope.specs.Calls.{bare_callee, call_by, call_with, called, callee_in, callee_of, dot_callee, has_operation, implicit, is_given, operation_called, said};
ghost use Rattle.soil_scope.specs.Scenes.{scene};

use crate::Setting;
use crate::arguments::values;
use crate::expressions::type_of;
use class_decls::Name;
use class_model::{ClassModel, ClassNo, OclType, OpNo};
use ocl_core::{Act, Expr};
use ocl_rules::{TypeFault, Typed, breaks_t, broken_arguments, exprs_of, value_operation};
use ocl_scope::{Environment, Variable, definedness, type_named, type_test};
use ocl_shapes::{are_plain, class_asked};
use ocl_syntax::{Argument, Written};
use std::alloc::{AllocError, Global};
use use_lists::Items;
use use_text::Place;

/// A call of an operation of the model, checked.
#[derive(Drop)]
pub struct Call {
    pub receiver: Expr,
    pub op: OpNo,
    pub args: Items<Expr>,
}

/// The receiver of a call, typed, and the operation that it has under the name.
#[derive(Drop)]
pub struct Callee {
    pub source: Typed,
    pub op: OpNo,
}

/// Whether values of a type answer a name before the operations of the model are asked.
fn is_given(model: &ClassModel, of_type: &OclType, name: &str) -> bool
    ensures { result ≡ is_given model.now of_type.now name.now }
{
    definedness(name).is_some()
        || type_test(name).is_some()
        || name == "oclIsNew"
        || value_operation(model, of_type, name).is_some()
}

/// A class that the model does not have has no operation: a law, which costs nothing.
fn has_nothing(model: &ClassModel, class: ClassNo, name: &str)
    requires { length model.now.classes ≤ class }
    ensures { operation model.now class name.now ≡ None }
{
    model.has_numbers_in_range();
}

fn operation_of_class(model: &ClassModel, class: ClassNo, name: &str) -> Option<OpNo>
    ensures value { result ≡ operation model.now class name.now }
    ensures within { IfSome result (λ op. op < length model.now.ops) }
{
    if class < model.class_count() {
        return model.op(class, name);
    }
    has_nothing(model, class, name);
    None
}

/// The operation of a name that objects of a type have.
pub fn operation_of_type(model: &ClassModel, of_type: &OclType, name: &str) -> Option<OpNo>
    ensures value { result ≡ operation_of_type model.now of_type.now name.now }
    ensures within { IfSome result (λ op. op < length model.now.ops) }
{
    match of_type {
        OclType::Class(class) => operation_of_class(model, *class, name),
        _ => None,
    }
}

/// The operation of the model that a statement calls by a name.
fn operation_called(model: &ClassModel, of_type: &OclType, name: &str) -> Option<OpNo>
    ensures value { result ≡ operation_called model.now of_type.now name.now }
    ensures within { IfSome result (λ op. op < length model.now.ops) }
{
    if is_given(model, of_type, name) {
        None
    } else {
        operation_of_type(model, of_type, name)
    }
}

/// A call of a source that is typed.
fn callee_of(setting: &Setting<'_>, source: Typed, name: &Name) -> Option<Callee>
    ensures value { result ≡ callee_of (scene setting.now) source name.now }
    ensures within { IfSome result (λ c. c.op < length setting.now.model.now.ops) }
{
    let op = operation_called(setting.model, &source.of_type, name.text.as_str())?;
    Some(Callee { source, op })
}

/// A call behind a dot.
fn dot_callee(
    setting: &Setting<'_>,
    env: &mut Environment,
    source: &Written,
    name: &Name,
) -> Result<Option<Callee>, TypeFault>
    requires { env.old.size < 2 ^ 31 }
    ensures value { Tells (dot_callee (scene setting.now) env.old source.now name.now) result }
    ensures within { IfOk result (λ found. IfSome found (λ c. c.op < length setting.now.model.now.ops)) }
    ensures environment { env.new ≡ env.old }
{
    match class_asked(source, name) {
        Some(_) => Ok(None),
        None => {
            let source = type_of(setting, env, source)?;
            Ok(callee_of(setting, source, name))
        }
    }
}

fn has_operation(model: &ClassModel, name: &str, variable: &Variable) -> bool
    ensures { result ≡ has_operation model.now name.now variable.now }
{
    variable.is_implicit && operation_called(model, &variable.of_type, name).is_some()
}

/// The innermost implicit variable whose class has the operation.
#[tactic(auto, using(ocl_scope::proofs::Scopes::last_found, ocl_scope::proofs::Scopes::last_passed))]
fn implicit<'e>(model: &ClassModel, env: &'e Environment, name: &str) -> Option<&'e Variable>
    ensures { option_copied result ≡ implicit model.now env.now name.now }
{
    let variables = env.variables();
    let mut i = variables.len();
    'variables: while i > 0 {
        i -= 1;
        if has_operation(model, name, &variables[i]) {
            return Some(&variables[i]);
        }
    }
    None
}

/// A variable as an expression.
fn variable(alloc: Global, found: &Variable) -> Result<Typed, AllocError>
    ensures { IfOk result (λ t. t ≡ variable found.now) }
{
    Ok(Typed {
        expr: Expr::Local(found.number),
        of_type: found.of_type.try_copy(alloc)?,
    })
}

/// A call without a source, which is one of `self`.
fn bare_callee(
    setting: &Setting<'_>,
    env: &Environment,
    name: &Name,
) -> Result<Option<Callee>, AllocError>
    ensures value { IfOk result (λ found. found ≡ bare_callee (scene setting.now) env.now name.now) }
    ensures within { IfOk result (λ found. IfSome found (λ c. c.op < length setting.now.model.now.ops)) }
{
    if type_named(setting.model, name.text.as_str()).is_some() {
        return Ok(None);
    }
    match implicit(setting.model, env, name.text.as_str()) {
        None => Ok(None),
        Some(found) => {
            let source = variable(setting.alloc, found)?;
            Ok(callee_of(setting, source, name))
        }
    }
}

/// The call that an expression is where it stands as a statement, if it is one: its receiver and its
/// operation.
#[tactic(auto, unfolding(crate::specs::Calls::callee_in))]
pub fn callee_in(
    setting: &Setting<'_>,
    env: &mut Environment,
    expression: &Written,
) -> Result<Option<Callee>, TypeFault>
    requires { env.old.size < 2 ^ 31 }
    ensures value { Tells (callee_in (scene setting.now) env.old expression.now) result }
    ensures within { IfOk result (λ found. IfSome found (λ c. c.op < length setting.now.model.now.ops)) }
    ensures environment { env.new ≡ env.old }
{
    match expression {
        Written::Dot(source, name, _, Some(_)) => dot_callee(setting, env, source.get(), name),
        Written::Named(name, None, _, Some(_)) => Ok(bare_callee(setting, env, name)?),
        _ => Ok(None),
    }
}

/// A call of an operation of the model by its typed parts, or the rule that it breaks at the called
/// name: T2 and T3 of the arguments, T9 of `@pre`, which no such call takes.
pub fn call_by(
    setting: &Setting<'_>,
    place: Place,
    is_before: bool,
    receiver: Expr,
    op: OpNo,
    args: Items<Typed>,
    is_plain: bool,
) -> Result<Call, TypeFault>
    requires { op < length setting.now.model.now.ops }
    ensures { Tells (call_by setting.now.model.now place is_before receiver op args is_plain) result }
{
    if !is_plain {
        return Err(breaks_t(2, place));
    }
    let params = setting.model.op_params(op);
    if let Some(number) = broken_arguments(setting.model, params, args.as_slice()) {
        return Err(breaks_t(number, place));
    }
    if is_before {
        return Err(breaks_t(9, place));
    }
    Ok(Call {
        receiver,
        op,
        args: exprs_of(setting.alloc, args.into_vec())?,
    })
}

/// A call with these arguments.
#[tactic(auto, unfolding(crate::specs::Calls::call_with))]
fn call_with(
    setting: &Setting<'_>,
    env: &mut Environment,
    name: &Name,
    is_before: bool,
    arguments: &[Argument],
    callee: Callee,
) -> Result<Call, TypeFault>
    requires room { env.old.size < 2 ^ 31 }
    requires within { callee.op < length setting.now.model.now.ops }
    ensures value { Tells (call_with (scene setting.now) env.old name.now is_before arguments.now callee) result }
    ensures environment { env.new ≡ env.old }
{
    let args = values(setting, env, arguments)?;
    let Callee { source, op } = callee;
    let is_plain = are_plain(arguments);
    call_by(
        setting,
        name.place,
        is_before,
        source.expr,
        op,
        args,
        is_plain,
    )
}

/// A call, its arguments typed.
#[tactic(auto, unfolding(crate::specs::Calls::called))]
pub fn called(
    setting: &Setting<'_>,
    env: &mut Environment,
    expression: &Written,
    callee: Callee,
) -> Result<Call, TypeFault>
    requires room { env.old.size < 2 ^ 31 }
    requires within { callee.op < length setting.now.model.now.ops }
    ensures value { Tells (called (scene setting.now) env.old expression.now callee) result }
    ensures environment { env.new ≡ env.old }
{
    match expression {
        Written::Dot(_, name, is_before, Some(arguments)) => {
            call_with(setting, env, name, *is_before, arguments.as_slice(), callee)
        }
        Written::Named(name, None, is_before, Some(arguments)) => {
            call_with(setting, env, name, *is_before, arguments.as_slice(), callee)
        }
        _ => Err(breaks_t(11, expression.first_place())),
    }
}

/// An expression that stands alone as a statement: a call, or else T11 at the statement, where it
/// breaks no rule of its own.
#[tactic(auto, unfolding(crate::specs::Calls::said))]
pub fn said(
    setting: &Setting<'_>,
    env: &mut Environment,
    place: Place,
    expression: &Written,
) -> Result<Act, TypeFault>
    requires room { env.old.size < 2 ^ 31 }
    ensures value { Tells (said (scene setting.now) env.old place expression.now) result }
    ensures environment { env.new ≡ env.old }
{
    match callee_in(setting, env, expression)? {
        None => {
            let _ = type_of(setting, env, expression)?;
            Err(breaks_t(11, place))
        }
        Some(callee) => {
            let Call { receiver, op, args } = called(setting, env, expression, callee)?;
            Ok(Act::Call {
                receiver,
                op,
                args,
                target: None,
            })
        }
    }
}
