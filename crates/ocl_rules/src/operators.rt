ghost use Rattle.std.specs.Prelude.{◌≡◌};
ghost use Rattle.ocl_rules.specs.Operators.{arithmetic, binary_of, binary_rule, both, difference, is_kind_set, is_set, is_sum, logic, of_numbers_or_texts, operation_of, set_left, type_of_operation, type_of_sum, unary_rule};
ghost use Rattle.ocl_rules.specs.Typings.{Tells};

use crate::fault::breaks_t;
use crate::{TypeFault, Typed};
use class_model::{ClassModel, OclType};
use ocl_core::{BinaryOp, Expr, UnaryOp};
use ocl_syntax::{WrittenBinary, WrittenUnary};
use ocl_values::{IntOp, Kind, StrOp};
use std::alloc::Global;
use use_lists::Boxed;
use use_text::Place;

/// `not` of a Boolean and the sign of an Integer.
pub fn unary_rule(
    alloc: Global,
    model: &ClassModel,
    place: Place,
    op: WrittenUnary,
    operand: Typed,
) -> Result<Typed, TypeFault>
    ensures { Tells (unary_rule model.now place op operand) result }
{
    let Typed { expr, of_type } = operand;
    match op {
        WrittenUnary::Not => {
            if !model.conforms(&of_type, &OclType::Bool) {
                return Err(breaks_t(1, place));
            }
            Ok(Typed {
                expr: Expr::Unary(UnaryOp::Not, Boxed::new(alloc, expr)?),
                of_type: OclType::Bool,
            })
        }
        WrittenUnary::Neg => {
            if !model.conforms(&of_type, &OclType::Int) {
                return Err(breaks_t(1, place));
            }
            Ok(Typed {
                expr: Expr::Unary(UnaryOp::Neg, Boxed::new(alloc, expr)?),
                of_type: OclType::Int,
            })
        }
    }
}

pub(crate) fn both(model: &ClassModel, of_type: &OclType, a: &OclType, b: &OclType) -> bool
    ensures { result ≡ both model.now of_type.now a.now b.now }
{
    model.conforms(a, of_type) && model.conforms(b, of_type)
}

fn is_set(of_type: &OclType) -> bool
    ensures { result ≡ is_set of_type.now }
{
    match of_type {
        OclType::Void => true,
        OclType::Coll(kind, _) => is_kind_set(*kind),
        _ => false,
    }
}

pub(crate) fn is_kind_set(kind: Kind) -> bool
    ensures { result ≡ is_kind_set kind }
{
    match kind {
        Kind::Set => true,
        _ => false,
    }
}

fn logic(model: &ClassModel, op: BinaryOp, a: &OclType, b: &OclType) -> Option<BinaryOp>
    ensures { result ≡ logic model.now op a.now b.now }
{
    if both(model, &OclType::Bool, a, b) {
        Some(op)
    } else {
        None
    }
}

fn arithmetic(model: &ClassModel, op: IntOp, a: &OclType, b: &OclType) -> Option<BinaryOp>
    ensures { result ≡ arithmetic model.now op a.now b.now }
{
    if both(model, &OclType::Int, a, b) {
        Some(BinaryOp::Int(op))
    } else {
        None
    }
}

fn of_numbers_or_texts(
    model: &ClassModel,
    op: IntOp,
    text_op: StrOp,
    a: &OclType,
    b: &OclType,
) -> Option<BinaryOp>
    ensures { result ≡ of_numbers_or_texts model.now op text_op a.now b.now }
{
    if both(model, &OclType::Int, a, b) {
        Some(BinaryOp::Int(op))
    } else if both(model, &OclType::Str, a, b) {
        Some(BinaryOp::Str(text_op))
    } else {
        None
    }
}

fn difference(model: &ClassModel, a: &OclType, b: &OclType) -> Option<BinaryOp>
    ensures { result ≡ difference model.now a.now b.now }
{
    if both(model, &OclType::Int, a, b) {
        Some(BinaryOp::Int(IntOp::Sub))
    } else if is_set(a) && is_set(b) {
        Some(BinaryOp::Minus)
    } else {
        None
    }
}

/// The operation that an operator stands for between operands of these types.
fn operation_of(model: &ClassModel, op: WrittenBinary, a: &OclType, b: &OclType) -> Option<BinaryOp>
    ensures { result ≡ operation_of model.now op a.now b.now }
{
    match op {
        WrittenBinary::And => logic(model, BinaryOp::And, a, b),
        WrittenBinary::Or => logic(model, BinaryOp::Or, a, b),
        WrittenBinary::Xor => logic(model, BinaryOp::Xor, a, b),
        WrittenBinary::Implies => logic(model, BinaryOp::Implies, a, b),
        WrittenBinary::Eq => Some(BinaryOp::Eq),
        WrittenBinary::Ne => Some(BinaryOp::Ne),
        WrittenBinary::Lt => of_numbers_or_texts(model, IntOp::Lt, StrOp::Lt, a, b),
        WrittenBinary::Le => of_numbers_or_texts(model, IntOp::Le, StrOp::Le, a, b),
        WrittenBinary::Gt => of_numbers_or_texts(model, IntOp::Gt, StrOp::Gt, a, b),
        WrittenBinary::Ge => of_numbers_or_texts(model, IntOp::Ge, StrOp::Ge, a, b),
        WrittenBinary::Add => of_numbers_or_texts(model, IntOp::Add, StrOp::Concat, a, b),
        WrittenBinary::Sub => difference(model, a, b),
        WrittenBinary::Mul => arithmetic(model, IntOp::Mul, a, b),
        WrittenBinary::Div => arithmetic(model, IntOp::Div, a, b),
        WrittenBinary::Mod => arithmetic(model, IntOp::Mod, a, b),
    }
}

fn set_left(a: OclType, b: OclType) -> OclType
    ensures { result ≡ set_left a b }
{
    match a {
        OclType::Void => b,
        OclType::Coll(kind, element) => OclType::Coll(kind, element),
        a => a,
    }
}

fn type_of_sum(op: BinaryOp, a: OclType, b: OclType) -> OclType
    ensures { result ≡ type_of_sum op a b }
{
    match op {
        BinaryOp::Int(_) => OclType::Int,
        BinaryOp::Str(_) => OclType::Str,
        BinaryOp::Minus => set_left(a, b),
        _ => OclType::Bool,
    }
}

fn is_sum(op: WrittenBinary) -> bool
    ensures { result ≡ is_sum op }
{
    matches!(
        op,
        WrittenBinary::Add
            | WrittenBinary::Sub
            | WrittenBinary::Mul
            | WrittenBinary::Div
            | WrittenBinary::Mod
    )
}

fn type_of_operation(op: WrittenBinary, made: BinaryOp, a: OclType, b: OclType) -> OclType
    ensures { result ≡ type_of_operation op made a b }
{
    if is_sum(op) {
        type_of_sum(made, a, b)
    } else {
        OclType::Bool
    }
}

/// An operator between two operands.
pub fn binary_rule(
    alloc: Global,
    model: &ClassModel,
    place: Place,
    op: WrittenBinary,
    a: Typed,
    b: Typed,
) -> Result<Typed, TypeFault>
    ensures { Tells (binary_rule model.now place op a b) result }
{
    match operation_of(model, op, &a.of_type, &b.of_type) {
        None => Err(breaks_t(1, place)),
        Some(made) => {
            let of_type = type_of_operation(op, made, a.of_type, b.of_type);
            let left = Boxed::new(alloc, a.expr)?;
            Ok(Typed {
                expr: Expr::Binary(made, left, Boxed::new(alloc, b.expr)?),
                of_type,
            })
        }
    }
}
