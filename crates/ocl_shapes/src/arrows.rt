ghost use Rattle.std.specs.Prelude.{◌≡◌};
ghost use Rattle.use_text.specs.Codes.{code_of};
ghost use Rattle.use_text.specs.Refusals.{refusal_at};
ghost use Rattle.use_text.specs.declared.code.Family.TheVariants.{T};
ghost use Rattle.ocl_rules.specs.declared.fault.TypeFault.TheVariants.{Refused};
ghost use Rattle.ocl_rules.specs.Iterators.{iterate_rule, iterator_rule};
ghost use Rattle.ocl_rules.specs.Typings.{Tells};
ghost use Rattle.ocl_shapes.specs.Arrows.{operation_called};

use crate::Elements;
use class_decls::Name;
use class_model::{ClassModel, OclType};
use ocl_core::IterOp;
use ocl_rules::{
    CollectionOperation, TypeFault, Typed, breaks_n, breaks_t, collection_call_rule, iterate_rule,
    iterator_rule,
};
use std::alloc::Global;
use use_lists::Items;
use use_text::Place;

/// An iterator whose arguments have no such form.
pub fn malformed(name: &Name) -> TypeFault
    ensures { result ≡ Refused (refusal_at (code_of T 7) name.now.place) }
{
    breaks_t(7, name.place)
}

/// An operation of a collection, where its arguments are typed and `found` is its row in the table.
pub fn operation_called(
    alloc: Global,
    model: &ClassModel,
    name: &Name,
    elements: Elements,
    args: Items<Typed>,
    is_plain: bool,
    found: Option<CollectionOperation>,
) -> Result<Typed, TypeFault>
    ensures { Tells (operation_called model.now name.now elements args is_plain found) result }
{
    match found {
        None => Err(breaks_n(2, name.place)),
        Some(row) => {
            if !is_plain {
                return Err(breaks_t(2, name.place));
            }
            let Elements {
                kind,
                element,
                source,
            } = elements;
            collection_call_rule(
                alloc,
                model,
                name.place,
                &row,
                kind,
                &element,
                source,
                args.into_vec(),
            )
        }
    }
}

/// An iterator whose body is typed.
pub fn iterated(
    alloc: Global,
    model: &ClassModel,
    name: &Name,
    op: IterOp,
    elements: Elements,
    count: u32,
    variables: &[Option<OclType>],
    body_place: Place,
    body: Typed,
) -> Result<Typed, TypeFault>
    ensures { Tells (iterator_rule model.now name.now.place op
        elements.kind elements.element count variables.now body_place elements.source body) result }
{
    let Elements {
        kind,
        element,
        source,
    } = elements;
    iterator_rule(
        alloc, model, name.place, op, kind, &element, count, variables, body_place, source, body,
    )
}

/// `iterate`, where its start and its body are typed; the places are those of both.
pub fn accumulated(
    alloc: Global,
    model: &ClassModel,
    name: &Name,
    elements: Elements,
    declared: &Option<OclType>,
    of_type: OclType,
    places: (Place, Place),
    start: Typed,
    body: Typed,
) -> Result<Typed, TypeFault>
    ensures { Tells (iterate_rule model.now name.now.place elements.element declared.now
        of_type places.0 places.1 elements.source start body) result }
{
    let Elements {
        kind: _,
        element,
        source,
    } = elements;
    iterate_rule(
        alloc, model, name.place, &element, declared, of_type, places.0, places.1, source, start,
        body,
    )
}
