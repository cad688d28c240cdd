use class_model::{AssocNo, AttrNo, ClassNo, End};
use ocl_values::{ObjNo, Value};
use use_lists::Items;

/// A part of a state that an evaluation can look at.
#[derive(Clone, Copy, Debug, PartialEq, Eq, PartialOrd, Ord)]
pub enum Cell {
    /// The class of an object.
    Kind(ObjNo),
    /// The value of an attribute of an object.
    Slot(ObjNo, AttrNo),
    /// The objects that links of an association join at an end to an object.
    Nav(AssocNo, End, ObjNo),
    /// The live objects of a class and its descendants.
    Extent(ClassNo),
}

/// What a cell holds.
#[derive(Debug, Drop, PartialEq, Eq)]
pub enum Look {
    /// No such object, attribute or end.
    Absent,
    Class(ClassNo),
    Value(Value),
    /// Objects: at an end by stamps, of a class by number.
    Items(Items<Value>),
}
