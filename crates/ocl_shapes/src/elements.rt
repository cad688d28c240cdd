ghost use Rattle.std.specs.Prelude.{◌≡◌, IfOk};
ghost use Rattle.ocl_values.specs.declared.value.Kind.TheVariants.{Set};
ghost use Rattle.ocl_rules.specs.CollectionOperations.{kind_or};
ghost use Rattle.ocl_scope.specs.Calls.{is_collection};
ghost use Rattle.ocl_shapes.specs.Sources.{as_set, asks_elements, element_or_itself, elements_of};

use class_model::OclType;
use ocl_core::Expr;
use ocl_rules::Typed;
use ocl_scope::definedness;
use ocl_values::Kind;
use std::alloc::{AllocError, Global};
use use_lists::Boxed;

/// The source of an arrow, as a collection.
#[derive(Drop)]
pub struct Elements {
    pub kind: Kind,
    pub element: OclType,
    pub source: Typed,
}

pub(crate) fn is_collection(of_type: &OclType) -> bool
    ensures { result ≡ is_collection of_type.now }
{
    matches!(of_type, OclType::Coll(_, _))
}

fn kind_of(of_type: &OclType) -> Kind
    ensures { result ≡ kind_or Set of_type.now }
{
    match of_type {
        OclType::Coll(kind, _) => *kind,
        _ => Kind::Set,
    }
}

/// The type of the elements; a value that is no collection is the one element.
fn element_or_itself(alloc: Global, of_type: &OclType) -> Result<OclType, AllocError>
    ensures { IfOk result (λ t. t ≡ element_or_itself of_type.now) }
{
    match of_type {
        OclType::Coll(_, element) => element.get().try_copy(alloc),
        _ => of_type.try_copy(alloc),
    }
}

fn as_set(alloc: Global, source: Typed) -> Result<Typed, AllocError>
    ensures { IfOk result (λ t. t ≡ as_set source) }
{
    if is_collection(&source.of_type) {
        return Ok(source);
    }
    let Typed { expr, of_type } = source;
    Ok(Typed {
        expr: Expr::ToSet(Boxed::new(alloc, expr)?),
        of_type,
    })
}

/// A value that is no collection is a set of it.
pub fn elements_of(alloc: Global, source: Typed) -> Result<Elements, AllocError>
    ensures { IfOk result (λ es. es ≡ elements_of source) }
{
    let kind = kind_of(&source.of_type);
    let element = element_or_itself(alloc, &source.of_type)?;
    Ok(Elements {
        kind,
        element,
        source: as_set(alloc, source)?,
    })
}

/// Whether a call behind a dot is one of the elements of a collection.
pub fn asks_elements(of_type: &OclType, name: &str) -> bool
    ensures { result ≡ asks_elements of_type.now name.now }
{
    is_collection(of_type) && !definedness(name).is_some()
}
