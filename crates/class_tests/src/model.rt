use crate::texts::{language, model_of};
use class_model::{ClassModel, End, Kind, OclType};
use std::alloc::{AllocError, Global};
use std::test::Fail;
use use_lists::Boxed;

/// An enumeration, a diamond with its lowest class first, and an association.
const DIAMOND: &str = "model M\nenum Grade {junior, senior}\n\
    class D < B, C operations f() end\n\
    class B < A attributes code : Integer = 1 end\n\
    class C < A attributes grade : Grade end\n\
    class A attributes size : Integer operations f() end\n\
    association Joins between A[0..1] role whole B[*] role parts ordered end\n";

fn diamond(alloc: Global) -> Result<Option<ClassModel>, Fail> {
    match language(alloc)? {
        None => Ok(None),
        Some(g) => model_of(alloc, &g, DIAMOND),
    }
}

fn is_numbered_from_its_top(model: &ClassModel) -> bool {
    model.class_by_name("A") == Some(0)
        && model.class_by_name("B") == Some(1)
        && model.class_by_name("C") == Some(2)
        && model.class_by_name("D") == Some(3)
        && model.class_by_name("Grade").is_none()
        && model.class_count() == 4
}

fn descends_from_both_sides(model: &ClassModel) -> bool {
    model.is_a(3, 0) && model.is_a(3, 2) && !model.is_a(1, 2)
}

fn has_what_it_inherits(model: &ClassModel) -> bool {
    3 < model.class_count()
        && model.ancestors(3) == [0, 1, 2, 3].as_slice()
        && model.parents(3) == [1, 2].as_slice()
        && model.attrs(3) == [0, 1].as_slice()
        && model.ops(3) == [0].as_slice()
}

fn has_features_by_name(model: &ClassModel) -> bool {
    3 < model.class_count()
        && model.op(3, "f") == Some(1)
        && model.op(2, "f") == Some(0)
        && model.attr(3, "grade") == Some(1)
        && model.attr(3, "code").is_none()
        && model.derived(3, "code") == Some(0)
}

fn sees_the_roles_of_the_other_ends(model: &ClassModel) -> bool {
    3 < model.class_count()
        && model.role(3, "whole") == Some((0, End::First))
        && model.role(2, "parts") == Some((0, End::Second))
        && model.role(2, "whole").is_none()
}

fn attributes_have_their_types(model: &ClassModel) -> bool {
    model.attr_count() == 2
        && model.attr_name(1) == "grade"
        && *model.attr_type(1) == OclType::Enum(0)
        && model.attr_class(1) == 2
}

fn ends_have_their_classes(model: &ClassModel) -> bool {
    model.assoc_count() == 1
        && model.end_class(0, End::Second) == 1
        && model.is_ordered(0, End::Second)
        && End::First.opposite() == End::Second
        && End::Second.opposite() == End::First
}

fn ends_have_their_multiplicities(model: &ClassModel) -> bool {
    model.assoc_count() == 1
        && model.multiplicity(0, End::First).greatest_is_one()
        && model.multiplicity(0, End::Second).allows(7)
        && model.multiplicity(0, End::First).spec() == "0..1"
}

fn enumerations_are_found_by_name(model: &ClassModel) -> bool {
    model.name() == "M"
        && model.enum_count() == 1
        && model.enum_by_name("Grade") == Some(0)
        && model.only_literal("senior") == Some((0, 1))
        && model.only_literal("principal").is_none()
}

fn plain_types_conform_to_the_top_type(model: &ClassModel) -> bool {
    model.conforms(&OclType::Int, &OclType::Any)
        && model.conforms(&OclType::Void, &OclType::Enum(0))
        && !model.conforms(&OclType::Int, &OclType::Str)
}

/// A type of collections of a kind.
fn collection(alloc: Global, kind: Kind, element: OclType) -> Result<OclType, AllocError> {
    Ok(OclType::Coll(kind, Boxed::new(alloc, element)?))
}

/// Whether collections conform, and join, by their kind and their elements.
fn collections_conform(alloc: Global, model: &ClassModel) -> Result<bool, AllocError> {
    let integers = collection(alloc, Kind::Set, OclType::Int)?;
    let empty = collection(alloc, Kind::Set, OclType::Void)?;
    let bag = collection(alloc, Kind::Bag, OclType::Int)?;
    Ok(
        model.conforms(&integers, &integers)
            && !model.conforms(&bag, &integers)
            && model.join_types(alloc, &integers, &empty)? == integers,
    )
}

#[test]
fn a_model_is_read_by_number_and_by_name(rt: HostRuntime) -> Result<(), Fail> {
    let found = diamond(rt.alloc())?;
    assert!(rt; found.is_some());
    if let Some(model) = &found {
        assert!(rt; is_numbered_from_its_top(model));
        assert!(rt; descends_from_both_sides(model));
        assert!(rt; has_what_it_inherits(model));
        assert!(rt; has_features_by_name(model));
        assert!(rt; sees_the_roles_of_the_other_ends(model));
        assert!(rt; attributes_have_their_types(model));
        assert!(rt; ends_have_their_classes(model));
        assert!(rt; ends_have_their_multiplicities(model));
        assert!(rt; enumerations_are_found_by_name(model));
    }
    Ok(())
}

#[test]
fn types_conform_and_join(rt: HostRuntime) -> Result<(), Fail> {
    let found = diamond(rt.alloc())?;
    assert!(rt; found.is_some());
    if let Some(model) = &found {
        assert!(rt; plain_types_conform_to_the_top_type(model));
        assert!(rt; collections_conform(rt.alloc(), model)?);
    }
    Ok(())
}
