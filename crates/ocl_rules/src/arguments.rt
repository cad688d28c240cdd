ghost use Rattle.std.specs.Prelude.{◌≡◌, ◌∷◌, IfOk};
ghost use Rattle.ocl_rules.specs.Arguments.{all_fit, broken_arguments, conforms_to, exprs, passes_at};
ghost use Rattle.ocl_rules.specs.ValueOperations.{plain_type};
ghost use Rattle.class_model.specs.Conformance.{conforms};

use crate::{PlainType, Typed};
use class_model::{ClassModel, OclType, Parameter};
use ocl_core::Expr;
use std::alloc::{AllocError, Global};
use use_lists::Items;

/// Whether a type conforms to one of the table's.
pub(crate) fn conforms_plain(model: &ClassModel, of_type: &OclType, plain: PlainType) -> bool
    ensures { result ≡ conforms model.now of_type.now (plain_type plain) }
{
    match plain {
        PlainType::Bool => model.conforms(of_type, &OclType::Bool),
        PlainType::Int => model.conforms(of_type, &OclType::Int),
        PlainType::Str => model.conforms(of_type, &OclType::Str),
    }
}

fn plain_at(model: &ClassModel, param: PlainType, args: &[Typed], at: usize) -> bool
    ensures { result ≡ passes_at (conforms_to model.now (plain_type param)) args.now at }
{
    match args.get(at) {
        None => false,
        Some(arg) => conforms_plain(model, &arg.of_type, param),
    }
}

fn all_plain(model: &ClassModel, params: &[PlainType], args: &[Typed]) -> bool
    ensures { result ≡ all_fit (λ p a. conforms_to model.now (plain_type p) a) params.now args.now }
{
    params
        .iter()
        .enumerate()
        .all(|(i, param)| plain_at(model, *param, args, i))
}

/// The rule that arguments break against the parameters of an operation of values.
pub(crate) fn broken_plain(model: &ClassModel, params: &[PlainType], args: &[Typed]) -> Option<u8>
    ensures { result ≡ broken_arguments (λ p a. conforms_to model.now (plain_type p) a) params.now args.now }
{
    if args.len() != params.len() {
        Some(2)
    } else if all_plain(model, params, args) {
        None
    } else {
        Some(3)
    }
}

fn conforms_at(model: &ClassModel, param: &Parameter, args: &[Typed], at: usize) -> bool
    ensures { result ≡ passes_at (conforms_to model.now param.now.of_type) args.now at }
{
    match args.get(at) {
        None => false,
        Some(arg) => model.conforms(&arg.of_type, &param.of_type),
    }
}

fn all_conform(model: &ClassModel, params: &[Parameter], args: &[Typed]) -> bool
    ensures { result ≡ all_fit (λ p a. conforms_to model.now p.of_type a) params.now args.now }
{
    params
        .iter()
        .enumerate()
        .all(|(i, param)| conforms_at(model, param, args, i))
}

/// The rule that arguments break against the parameters of a model's operation.
pub fn broken_arguments(model: &ClassModel, params: &[Parameter], args: &[Typed]) -> Option<u8>
    ensures { result ≡ broken_arguments (λ p a. conforms_to model.now p.of_type a) params.now args.now }
{
    if args.len() != params.len() {
        Some(2)
    } else if all_conform(model, params, args) {
        None
    } else {
        Some(3)
    }
}

/// The expressions of a source and its arguments.
pub(crate) fn source_and_args(
    alloc: Global,
    source: Expr,
    args: Vec<Typed>,
) -> Result<Items<Expr>, AllocError>
    ensures { IfOk result (λ all. all ≡ source ∷ exprs args.items) }
{
    let mut all = Vec::with_capacity(alloc, args.len() + 1)?;
    all.push(source)?;
    'each: for arg in args {
        all.push(expr_of(arg))?;
    }
    Ok(Items::from_vec(all))
}

fn expr_of(arg: Typed) -> Expr
    ensures { result ≡ arg.expr }
{
    let Typed { expr, of_type: _ } = arg;
    expr
}

/// The expressions of arguments.
pub fn exprs_of(alloc: Global, args: Vec<Typed>) -> Result<Items<Expr>, AllocError>
    ensures { IfOk result (λ all. all ≡ exprs args.items) }
{
    let all = args.into_iter().map(expr_of).collect::<Vec<Expr>>(alloc)?;
    Ok(Items::from_vec(all))
}
