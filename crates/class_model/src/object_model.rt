use crate::{ClassNo, Multiplicity, OclType};
use class_decls::BodyKind;
use ocl_values::Text;
use use_lists::Items;

/// An enumeration, with its literals by number.
#[derive(Debug, Drop)]
pub struct Enumeration {
    pub name: Text,
    pub literals: Items<Text>,
}

/// A class, without what it inherits.
#[derive(Debug, Drop)]
pub struct Class {
    pub name: Text,
    pub is_abstract: bool,
    /// The direct parents, in the order of the text.
    pub parents: Items<ClassNo>,
}

/// An attribute, stored or derived, and the class that declares it.
#[derive(Debug, Drop)]
pub struct Attribute {
    pub name: Text,
    pub of_type: OclType,
    pub class: ClassNo,
}

/// A parameter of an operation.
#[derive(Debug, Drop)]
pub struct Parameter {
    pub name: Text,
    pub of_type: OclType,
}

/// A declaration of an operation, and the class that declares it.
#[derive(Debug, Drop)]
pub struct Operation {
    pub name: Text,
    pub params: Items<Parameter>,
    pub result_type: Option<OclType>,
    pub class: ClassNo,
    pub body: BodyKind,
}

/// An end of an association: a class, and the role that its objects play there.
#[derive(Debug, Drop)]
pub struct AssociationEnd {
    pub class: ClassNo,
    pub role: Text,
    pub is_ordered: bool,
    pub multiplicity: Multiplicity,
}

/// An association of two ends.
#[derive(Debug, Drop)]
pub struct Association {
    pub name: Text,
    pub first: AssociationEnd,
    pub second: AssociationEnd,
}

/// An object model (OCL 2.3.1, A.1): what there is, each thing at its number.
#[derive(Debug, Drop)]
pub struct ObjectModel {
    pub name: Text,
    pub enums: Items<Enumeration>,
    pub classes: Items<Class>,
    /// The stored attributes.
    pub attrs: Items<Attribute>,
    /// The derived attributes.
    pub derived: Items<Attribute>,
    pub ops: Items<Operation>,
    pub assocs: Items<Association>,
}
