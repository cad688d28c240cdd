ghost use Rattle.std.specs.Prelude.{◌≡◌, ◌↔◌, ℕ, Some, true, IsTrue, is_some, nat_eq};
ghost use Rattle.std.specs.List.{list_all, list_any};
ghost use Rattle.class_model.specs.Conformance.{Conforms, IsLeast, conforms, join};
ghost use Rattle.class_model.specs.Features.{declarations, operation, overrides};

use crate::{ClassModel, ClassNo, OclType};

/// Laws of conformance, of joins and of operations that override others. The functions do nothing; what they ensure is the law.
impl ClassModel {
    /// The test of conformance decides the relation.
    pub fn conformance_is_decided(&self, a: &OclType, b: &OclType)
        ensures { IsTrue (conforms self.now a.now b.now) ↔ Conforms self.now a.now b.now }
    {
        self.has_numbers_in_range();
    }

    /// Each type conforms to itself.
    pub fn conformance_is_reflexive(&self, a: &OclType)
        ensures { conforms self.now a.now a.now ≡ true }
    {
        self.has_numbers_in_range();
    }

    /// What conforms to a type conforms to whatever that one conforms to.
    pub fn conformance_is_transitive(&self, a: &OclType, b: &OclType, c: &OclType)
        requires first { conforms self.now a.now b.now ≡ true }
        requires second { conforms self.now b.now c.now ≡ true }
        ensures { conforms self.now a.now c.now ≡ true }
    {
        self.has_numbers_in_range();
    }

    /// Both types conform to their join.
    pub fn types_conform_to_their_join(&self, a: &OclType, b: &OclType)
        ensures first { conforms self.now a.now (join self.now a.now b.now) ≡ true }
        ensures second { conforms self.now b.now (join self.now a.now b.now) ≡ true }
    {
        self.has_numbers_in_range();
    }

    /// The join conforms to the least type to which both conform, where there is one.
    pub fn joins_are_least(&self, a: &OclType, b: &OclType, least: &OclType)
        requires { IsLeast self.now a.now b.now least.now }
        ensures { conforms self.now (join self.now a.now b.now) least.now ≡ true }
    {
        self.has_numbers_in_range();
    }

    /// The declaration that a class has under a name is one of those that it meets, and it overrides
    /// all of them. There is one wherever one of them overrides all.
    pub fn operations_override_all_others(&self, class: ClassNo, name: &str)
        ensures met { (o : ℕ) → operation self.now class name.now ≡ Some o → list_any (nat_eq o) (declarations self.now class name.now) ≡ true }
        ensures overriding { (o : ℕ) → operation self.now class name.now ≡ Some o
            → list_all (overrides self.now o) (declarations self.now class name.now) ≡ true }
        ensures there { (o : ℕ) → list_any (nat_eq o) (declarations self.now class name.now) ≡ true
            → list_all (overrides self.now o) (declarations self.now class name.now) ≡ true → is_some (operation self.now class name.now) ≡ true }
    {
        self.has_numbers_in_range();
    }
}
