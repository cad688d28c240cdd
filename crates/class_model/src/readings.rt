ghost use Rattle.std.specs.Prelude.{◌≡◌, ◌<◌, ◌≤◌, ◌^◌, ℕ, Some, length, slice_get};
ghost use Rattle.std.specs.Option.{option_copied, option_map};
ghost use Rattle.class_model.specs.Ends.{end_of};
ghost use Rattle.class_model.specs.Features.{attr, attrs, derived, derived_attrs, dispatch, operation, ops, role};
ghost use Rattle.class_model.specs.Inheritance.{ancestors};
ghost use Rattle.class_model.specs.Parts.{assoc_name, attr_class, attr_name, attr_type, class_name, der_class, der_name, der_type, end_class, enum_name, is_abstract, is_ordered, literal_count, literal_name, multiplicity, op_body_kind, op_class, op_name, op_params, op_result, parents, role_name};

use crate::{
    AssocNo, Association, AssociationEnd, AttrNo, Attribute, BodyKind, Class, ClassModel, ClassNo,
    DerNo, End, EnumNo, Enumeration, LitNo, Multiplicity, OclType, OpNo, Operation, Parameter,
};

impl Association {
    /// What stands at an end.
    pub fn end(&self, end: End) -> &AssociationEnd
        ensures { result.now ≡ end_of self.now end }
    {
        match end {
            End::First => &self.first,
            End::Second => &self.second,
        }
    }
}

/// The things of each number.
impl ClassModel {
    fn class(&self, number: ClassNo) -> &Class
        requires { number < length self.now.classes }
        ensures { slice_get self.now.classes number ≡ Some result.now }
    {
        &self.as_model().classes.as_slice()[number as usize]
    }

    fn enumeration(&self, number: EnumNo) -> &Enumeration
        requires { number < length self.now.enums }
        ensures { slice_get self.now.enums number ≡ Some result.now }
    {
        &self.as_model().enums.as_slice()[number as usize]
    }

    fn attribute(&self, number: AttrNo) -> &Attribute
        requires { number < length self.now.attrs }
        ensures { slice_get self.now.attrs number ≡ Some result.now }
    {
        &self.as_model().attrs.as_slice()[number as usize]
    }

    fn derived_attribute(&self, number: DerNo) -> &Attribute
        requires { number < length self.now.derived }
        ensures { slice_get self.now.derived number ≡ Some result.now }
    {
        &self.as_model().derived.as_slice()[number as usize]
    }

    fn operation(&self, number: OpNo) -> &Operation
        requires { number < length self.now.ops }
        ensures { slice_get self.now.ops number ≡ Some result.now }
    {
        &self.as_model().ops.as_slice()[number as usize]
    }

    fn association(&self, number: AssocNo) -> &Association
        requires { number < length self.now.assocs }
        ensures { slice_get self.now.assocs number ≡ Some result.now }
    {
        &self.as_model().assocs.as_slice()[number as usize]
    }
}

/// Classes.
impl ClassModel {
    /// The name of a class.
    pub fn class_name(&self, class: ClassNo) -> &str
        requires { class < length self.now.classes }
        ensures { result.now ≡ class_name self.now class }
    {
        self.class(class).name.as_str()
    }

    /// Whether a class has no objects of its own.
    pub fn is_abstract(&self, class: ClassNo) -> bool
        requires { class < length self.now.classes }
        ensures { result ≡ is_abstract self.now class }
    {
        self.class(class).is_abstract
    }

    /// The direct parents of a class, in the order of the text.
    pub fn parents(&self, class: ClassNo) -> &[ClassNo]
        requires { class < length self.now.classes }
        ensures { result.now ≡ parents self.now class }
    {
        self.class(class).parents.as_slice()
    }

    /// A class and its ancestors, in the order of their numbers.
    pub fn ancestors(&self, class: ClassNo) -> &[ClassNo]
        requires { class < length self.now.classes }
        ensures { result.now ≡ ancestors self.now class }
    {
        self.index(class).ancestors.as_slice()
    }

    /// The stored attributes of a class, inherited ones first.
    pub fn attrs(&self, class: ClassNo) -> &[AttrNo]
        requires { class < length self.now.classes }
        ensures { result.now ≡ attrs self.now class }
    {
        self.index(class).attrs.as_slice()
    }

    /// The derived attributes of a class, inherited ones first.
    pub fn derived_attrs(&self, class: ClassNo) -> &[DerNo]
        requires { class < length self.now.classes }
        ensures { result.now ≡ derived_attrs self.now class }
    {
        self.index(class).derived.as_slice()
    }

    /// The operations of a class, inherited ones first, each at its first declaration.
    pub fn ops(&self, class: ClassNo) -> &[OpNo]
        requires { class < length self.now.classes }
        ensures { result.now ≡ ops self.now class }
    {
        self.index(class).ops.as_slice()
    }

    /// The stored attribute of a class by name.
    pub fn attr(&self, class: ClassNo, name: &str) -> Option<AttrNo>
        requires { class < length self.now.classes }
        ensures { result ≡ attr self.now class name.now }
    {
        self.index(class).attrs_by_name.get(name).copied()
    }

    /// The derived attribute of a class by name.
    pub fn derived(&self, class: ClassNo, name: &str) -> Option<DerNo>
        requires { class < length self.now.classes }
        ensures { result ≡ derived self.now class name.now }
    {
        self.index(class).derived_by_name.get(name).copied()
    }

    /// The association end that objects of a class see under a name.
    pub fn role(&self, class: ClassNo, name: &str) -> Option<(AssocNo, End)>
        requires { class < length self.now.classes }
        ensures { result ≡ role self.now class name.now }
    {
        self.index(class).roles_by_name.get(name).copied()
    }

    /// The declaration of an operation that overrides all others that a class has.
    pub fn op(&self, class: ClassNo, name: &str) -> Option<OpNo>
        requires { class < length self.now.classes }
        ensures { result ≡ operation self.now class name.now }
    {
        self.index(class).ops_by_name.get(name).copied()
    }
}

/// Attributes.
impl ClassModel {
    pub fn attr_name(&self, number: AttrNo) -> &str
        requires { number < length self.now.attrs }
        ensures { result.now ≡ attr_name self.now number }
    {
        self.attribute(number).name.as_str()
    }

    pub fn attr_type(&self, number: AttrNo) -> &OclType
        requires { number < length self.now.attrs }
        ensures { result.now ≡ attr_type self.now number }
    {
        &self.attribute(number).of_type
    }

    /// The class that declares a stored attribute.
    pub fn attr_class(&self, number: AttrNo) -> ClassNo
        requires { number < length self.now.attrs }
        ensures { result ≡ attr_class self.now number }
    {
        self.attribute(number).class
    }

    pub fn der_name(&self, number: DerNo) -> &str
        requires { number < length self.now.derived }
        ensures { result.now ≡ der_name self.now number }
    {
        self.derived_attribute(number).name.as_str()
    }

    pub fn der_type(&self, number: DerNo) -> &OclType
        requires { number < length self.now.derived }
        ensures { result.now ≡ der_type self.now number }
    {
        &self.derived_attribute(number).of_type
    }

    /// The class that declares a derived attribute.
    pub fn der_class(&self, number: DerNo) -> ClassNo
        requires { number < length self.now.derived }
        ensures { result ≡ der_class self.now number }
    {
        self.derived_attribute(number).class
    }
}

/// Operations.
impl ClassModel {
    pub fn op_name(&self, number: OpNo) -> &str
        requires { number < length self.now.ops }
        ensures { result.now ≡ op_name self.now number }
    {
        self.operation(number).name.as_str()
    }

    pub fn op_params(&self, number: OpNo) -> &[Parameter]
        requires { number < length self.now.ops }
        ensures { result.now ≡ op_params self.now number }
    {
        self.operation(number).params.as_slice()
    }

    /// The type of what an operation gives, if it gives anything.
    pub fn op_result(&self, number: OpNo) -> Option<&OclType>
        requires { number < length self.now.ops }
        ensures { option_copied result ≡ op_result self.now number }
    {
        self.operation(number).result_type.as_ref()
    }

    /// The class that declares an operation.
    pub fn op_class(&self, number: OpNo) -> ClassNo
        requires { number < length self.now.ops }
        ensures { result ≡ op_class self.now number }
    {
        self.operation(number).class
    }

    pub fn op_body_kind(&self, number: OpNo) -> BodyKind
        requires { number < length self.now.ops }
        ensures { result ≡ op_body_kind self.now number }
    {
        self.operation(number).body
    }

    /// The declaration that an object of a class carries out where this one is called. Where the class
    /// does not inherit from the one that declares it, that is the declaration itself.
    pub fn dispatch(&self, class: ClassNo, number: OpNo) -> OpNo
        requires class { class < length self.now.classes }
        requires number { number < length self.now.ops }
        ensures { result ≡ dispatch self.now class number }
    {
        let op = self.operation(number);
        if self.is_a(class, op.class) {
            self.op(class, op.name.as_str()).unwrap_or(number)
        } else {
            number
        }
    }
}

/// Associations.
impl ClassModel {
    pub fn assoc_name(&self, number: AssocNo) -> &str
        requires { number < length self.now.assocs }
        ensures { result.now ≡ assoc_name self.now number }
    {
        self.association(number).name.as_str()
    }

    /// The role at an end.
    pub fn role_name(&self, number: AssocNo, end: End) -> &str
        requires { number < length self.now.assocs }
        ensures { result.now ≡ role_name self.now number end }
    {
        self.association(number).end(end).role.as_str()
    }

    /// The class at an end.
    pub fn end_class(&self, number: AssocNo, end: End) -> ClassNo
        requires { number < length self.now.assocs }
        ensures { result ≡ end_class self.now number end }
    {
        self.association(number).end(end).class
    }

    /// Whether the objects at an end stand in an order.
    pub fn is_ordered(&self, number: AssocNo, end: End) -> bool
        requires { number < length self.now.assocs }
        ensures { result ≡ is_ordered self.now number end }
    {
        self.association(number).end(end).is_ordered
    }

    /// How many objects may stand at an end, for one at the other.
    pub fn multiplicity(&self, number: AssocNo, end: End) -> &Multiplicity
        requires { number < length self.now.assocs }
        ensures { result.now ≡ multiplicity self.now number end }
    {
        &self.association(number).end(end).multiplicity
    }
}

/// Enumerations.
impl ClassModel {
    pub fn enum_name(&self, number: EnumNo) -> &str
        requires { number < length self.now.enums }
        ensures { result.now ≡ enum_name self.now number }
    {
        self.enumeration(number).name.as_str()
    }

    pub fn literal_name(&self, number: EnumNo, literal: LitNo) -> &str
        requires number { number < length self.now.enums }
        requires literal { literal < literal_count self.now number }
        ensures { result.now ≡ literal_name self.now number literal }
    {
        self.enumeration(number).literals.as_slice()[literal as usize].as_str()
    }
}
