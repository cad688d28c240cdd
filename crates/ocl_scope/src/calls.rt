ghost use Rattle.std.specs.Prelude.{◌≡◌, [], ◌∷◌, ◌<◌, IfOk, None, Some, length};
ghost use Rattle.std.specs.Option.{option_copied};
ghost use Rattle.class_model.specs.Features.{only};
ghost use Rattle.ocl_rules.specs.Properties.{operation_of_type};
ghost use Rattle.ocl_rules.specs.Typings.{Tells};
ghost use Rattle.ocl_rules.specs.ValueOperations.{value_operation};
ghost use Rattle.ocl_scope.specs.Calls.{answers, answers_call, answers_more, call_beside, call_of_implicit, call_of_test, call_of_types, call_of_values, call_rule, definedness, definedness_rule, implicit_call, implicit_with_call, is_collection, operation_rule, test_with, test_with_one};

use crate::features::operation_of_type;
use crate::names::variable;
use crate::tests_of_values::{definedness, is_new_name, type_test};
use crate::{Environment, Given, TypeArgument, Variable};
use class_decls::Name;
use class_model::{ClassModel, OclType, OpNo};
use ocl_core::{Expr, PlainOp, TypeTest};
use ocl_rules::{
    TypeFault, Typed, ValueOperation, breaks_n, breaks_t, is_new_rule, query_rule, type_test_rule,
    value_operation, value_rule,
};
use std::alloc::{AllocError, Global};
use use_lists::Items;
use use_text::Place;

fn is_collection(of_type: &OclType) -> bool
    ensures { result ≡ is_collection of_type.now }
{
    matches!(of_type, OclType::Coll(_, _))
}

/// Whether a value of a type answers a call of a name, beside the tests of definedness.
fn answers_more(model: &ClassModel, of_type: &OclType, name: &str) -> bool
    ensures { result ≡ answers_more model.now of_type.now name.now }
{
    type_test(name).is_some()
        || is_new_name(name)
        || value_operation(model, of_type, name).is_some()
        || operation_of_type(model, of_type, name).is_some()
}

fn answers(model: &ClassModel, of_type: &OclType, name: &str) -> bool
    ensures { result ≡ answers model.now of_type.now name.now }
{
    definedness(name).is_some() || (!is_collection(of_type) && answers_more(model, of_type, name))
}

fn answers_call(model: &ClassModel, name: &str, variable: &Variable) -> bool
    ensures { result ≡ answers_call model.now name.now variable.now }
{
    variable.is_implicit && answers(model, &variable.of_type, name)
}

/// The innermost implicit variable that answers a call of a name.
#[tactic(auto, using(crate::proofs::Scopes::last_found, crate::proofs::Scopes::last_passed))]
fn implicit_with_call<'e>(
    model: &ClassModel,
    env: &'e Environment,
    name: &str,
) -> Option<&'e Variable>
    ensures { option_copied result ≡ implicit_with_call model.now env.now name.now }
{
    let variables = env.variables();
    let mut i = variables.len();
    'variables: while i > 0 {
        i -= 1;
        if answers_call(model, name, &variables[i]) {
            return Some(&variables[i]);
        }
    }
    None
}

/// The arguments of an operation of a value: the source alone.
fn source_alone(alloc: Global, source: Expr) -> Result<Items<Expr>, AllocError>
    ensures { IfOk result (λ all. all ≡ source ∷ []) }
{
    let mut all = Items::new(alloc);
    all.push(source)?;
    Ok(all)
}

fn definedness_rule(
    alloc: Global,
    place: Place,
    is_before: bool,
    op: PlainOp,
    source: Typed,
    args: &[Typed],
) -> Result<Typed, TypeFault>
    ensures { Tells (definedness_rule place is_before op source args.now) result }
{
    if !args.is_empty() {
        return Err(breaks_t(2, place));
    }
    if is_before {
        return Err(breaks_t(9, place));
    }
    Ok(Typed {
        expr: Expr::Plain(op, source_alone(alloc, source.expr)?),
        of_type: OclType::Bool,
    })
}

/// A call of a model's operation.
fn model_operation_rule(
    alloc: Global,
    model: &ClassModel,
    name: &Name,
    is_plain: bool,
    is_before: bool,
    source: Typed,
    args: Vec<Typed>,
    op: OpNo,
) -> Result<Typed, TypeFault>
    requires { op < length model.now.ops }
    ensures { Tells (operation_rule model.now name.now.place is_plain is_before source args.items None (Some op)) result }
{
    if is_plain {
        query_rule(alloc, model, name.place, is_before, op, source, args)
    } else {
        Err(breaks_t(2, name.place))
    }
}

/// A call of an operation of a value, or else of the model's.
fn operation_rule(
    alloc: Global,
    model: &ClassModel,
    name: &Name,
    is_plain: bool,
    is_before: bool,
    source: Typed,
    args: Vec<Typed>,
) -> Result<Typed, TypeFault>
    ensures { Tells (operation_rule model.now name.now.place is_plain is_before source args.items
        (value_operation model.now source.of_type name.now.text) (operation_of_type model.now source.of_type name.now.text)) result }
{
    match value_operation(model, &source.of_type, name.text.as_str()) {
        Some(row) => {
            if is_plain {
                value_rule(alloc, model, name.place, is_before, &row, source, args)
            } else {
                Err(breaks_t(2, name.place))
            }
        }
        None => {
            match operation_of_type(model, &source.of_type, name.text.as_str()) {
                None => Err(breaks_n(2, name.place)),
                Some(op) => {
                    model_operation_rule(alloc, model, name, is_plain, is_before, source, args, op)
                }
            }
        }
    }
}

fn call_beside(
    alloc: Global,
    model: &ClassModel,
    is_post: bool,
    name: &Name,
    is_before: bool,
    source: Typed,
    args: Vec<Typed>,
    is_plain: bool,
) -> Result<Typed, TypeFault>
    ensures { Tells (call_beside model.now is_post name.now is_before source args.items is_plain) result }
{
    if !is_new_name(name.text.as_str()) {
        return operation_rule(alloc, model, name, is_plain, is_before, source, args);
    }
    if is_plain {
        is_new_rule(
            alloc,
            name.place,
            is_post,
            is_before,
            source,
            args.as_slice(),
        )
    } else {
        Err(breaks_t(2, name.place))
    }
}

/// A call with values as arguments.
fn call_of_values(
    alloc: Global,
    model: &ClassModel,
    is_post: bool,
    name: &Name,
    is_before: bool,
    source: Typed,
    args: Vec<Typed>,
    is_plain: bool,
) -> Result<Typed, TypeFault>
    ensures { Tells (call_of_values model.now is_post name.now is_before source args.items is_plain (definedness name.now.text)) result }
{
    match definedness(name.text.as_str()) {
        None => call_beside(
            alloc, model, is_post, name, is_before, source, args, is_plain,
        ),
        Some(op) => {
            if is_plain {
                definedness_rule(alloc, name.place, is_before, op, source, args.as_slice())
            } else {
                Err(breaks_t(2, name.place))
            }
        }
    }
}

fn test_with(
    alloc: Global,
    place: Place,
    is_before: bool,
    test: TypeTest,
    source: Typed,
    arg: TypeArgument,
) -> Result<Typed, TypeFault>
    ensures { Tells (test_with place is_before test source arg) result }
{
    match arg {
        TypeArgument::OfType(of_type) => {
            type_test_rule(alloc, place, is_before, test, source, of_type)
        }
        TypeArgument::NoType(at) => Err(breaks_t(8, at)),
    }
}

/// The only element of a list.
fn only_argument(args: Items<TypeArgument>) -> Option<TypeArgument>
    ensures { result ≡ only args }
{
    let mut args = args;
    if args.len() == 1 { args.pop() } else { None }
}

/// A test of a type, with the one argument that it takes.
fn call_of_types(
    alloc: Global,
    place: Place,
    is_before: bool,
    test: TypeTest,
    source: Typed,
    args: Items<TypeArgument>,
    is_plain: bool,
) -> Result<Typed, TypeFault>
    ensures { Tells (call_of_types place is_before test source args is_plain) result }
{
    if !is_plain {
        return Err(breaks_t(2, place));
    }
    match only_argument(args) {
        None => Err(breaks_t(2, place)),
        Some(arg) => test_with(alloc, place, is_before, test, source, arg),
    }
}

/// A call of an operation of a value that is no collection (OCL 2.3.1, 7.5.5 and 11.3.1).
pub fn call_rule(
    alloc: Global,
    model: &ClassModel,
    is_post: bool,
    name: &Name,
    is_before: bool,
    source: Typed,
    given: Given,
) -> Result<Typed, TypeFault>
    ensures { Tells (call_rule model.now is_post name.now is_before source given) result }
{
    match given {
        Given::Values(args, is_plain) => {
            let args = args.into_vec();
            call_of_values(
                alloc, model, is_post, name, is_before, source, args, is_plain,
            )
        }
        Given::Types(args, is_plain) => match type_test(name.text.as_str()) {
            None => Err(breaks_n(2, name.place)),
            Some(test) => {
                call_of_types(alloc, name.place, is_before, test, source, args, is_plain)
            }
        },
    }
}

/// A call without a source: of the innermost implicit variable that answers it.
pub fn implicit_call(
    alloc: Global,
    model: &ClassModel,
    is_post: bool,
    env: &Environment,
    name: &Name,
    is_before: bool,
    given: Given,
) -> Result<Typed, TypeFault>
    ensures { Tells (implicit_call model.now is_post env.now name.now is_before given) result }
{
    match implicit_with_call(model, env, name.text.as_str()) {
        None => Err(breaks_n(1, name.place)),
        Some(found) => {
            let source = variable(alloc, found)?;
            call_rule(alloc, model, is_post, name, is_before, source, given)
        }
    }
}
