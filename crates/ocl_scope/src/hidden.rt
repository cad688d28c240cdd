ghost use Rattle.std.specs.Prelude.{◌≡◌, ◌+◌, ◌<◌, ◌≤◌, ◌^◌, IfOk, None};
ghost use Rattle.class_model.specs.declared.types.OclType.TheVariants as T;
ghost use Rattle.ocl_core.specs.Kinds.{collected_kind};
ghost use Rattle.ocl_core.specs.declared.expression.Expr.TheVariants as E;
ghost use Rattle.ocl_core.specs.declared.operators.IterOp.TheVariants.{Collect};
ghost use Rattle.ocl_rules.specs.CollectionOperations.{innermost};
ghost use Rattle.ocl_rules.specs.Forms.{levels, max_levels};
ghost use Rattle.ocl_scope.specs.Collected.{collected, hidden_element};

use class_model::OclType;
use ocl_core::{Expr, IterOp, collected_kind};
use ocl_rules::{Typed, innermost, levels};
use ocl_values::Kind;
use std::alloc::{AllocError, Global};
use use_lists::Boxed;

/// The innermost element of a collection, whose levels take the values of the environment from a
/// number on.
pub fn hidden_element(alloc: Global, of_type: &OclType, number: u32) -> Result<Typed, AllocError>
    requires nested { 0 < levels of_type.now }
    requires shallow { levels of_type.now ≤ max_levels }
    requires within { number + levels of_type.now < 2 ^ 32 }
    ensures { IfOk result (λ t. t ≡ hidden_element of_type.now number) }
{
    Ok(Typed {
        expr: Expr::Local(number + levels(of_type) - 1),
        of_type: innermost(alloc, of_type)?,
    })
}

/// What a body gives for each element of a source.
fn walk(alloc: Global, source: Expr, body: Expr) -> Result<Expr, AllocError>
    ensures { IfOk result (λ e. e ≡ E.Iter Collect source 1 None body) }
{
    let source = Boxed::new(alloc, source)?;
    let body = Boxed::new(alloc, body)?;
    Ok(Expr::Iter(IterOp::Collect, source, 1, None, body))
}

/// The type of what is collected of a collection of a kind, by the type of what is read.
fn flattened(alloc: Global, kind: Kind, read: &OclType) -> Result<OclType, AllocError>
    ensures { IfOk result (λ t. t ≡ T.Coll (collected_kind kind) (innermost read.now)) }
{
    let flat = innermost(alloc, read)?;
    Ok(OclType::Coll(collected_kind(kind), Boxed::new(alloc, flat)?))
}

/// What was read of each element of a source, collected.
fn collected_once(alloc: Global, kind: Kind, source: Expr, read: Typed) -> Result<Typed, AllocError>
    ensures { IfOk result (λ t. t ≡ record {
      expr = E.Iter Collect source 1 None read.expr;
      of_type = T.Coll (collected_kind kind) (innermost read.of_type);
    }) }
{
    let of_type = flattened(alloc, kind, &read.of_type)?;
    Ok(Typed {
        expr: walk(alloc, source, read.expr)?,
        of_type,
    })
}

/// What was read of that element, collected.
pub fn collected(
    alloc: Global,
    of_type: &OclType,
    source: Expr,
    number: u32,
    read: Typed,
) -> Result<Typed, AllocError>
    requires { number + levels of_type.now < 2 ^ 32 }
    ensures { IfOk result (λ t. t ≡ collected of_type.now source number read) }
{
    match of_type {
        OclType::Coll(kind, element) => {
            let inner = collected(alloc, element.get(), Expr::Local(number), number + 1, read)?;
            collected_once(alloc, *kind, source, inner)
        }
        _ => Ok(read),
    }
}
