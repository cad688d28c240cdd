ghost use Rattle.std.specs.Prelude.{◌≡◌, ◌<◌, ◌||◌, if◌then◌else◌, IfOk, Some, None, length, not};
ghost use Rattle.std.specs.List.{list_all};
ghost use Rattle.std.specs.Option.{option_and_then};
ghost use Rattle.class_model.specs.Conformance.{common_ancestors, conforms, join, lowest};
ghost use Rattle.class_model.specs.Indexes.{greater_by, greatest_by};
ghost use Rattle.class_model.specs.Inheritance.{is_a};

use crate::{ClassModel, ClassNo, OclType};
use ocl_values::Kind;
use std::alloc::{AllocError, Global};
use use_lists::Boxed;

fn greater_if(best: Option<ClassNo>, holds: bool, class: ClassNo) -> Option<ClassNo>
    ensures { result ≡ (if holds then Some (greater_by (λ c. c) best class) else best) }
{
    if !holds {
        return best;
    }
    match best {
        None => Some(class),
        Some(other) => { if other < class { Some(class) } else { best } }
    }
}

impl ClassModel {
    /// Whether values of one type are values of another (OCL 2.3.1, Annex A.2.7).
    pub fn conforms(&self, a: &OclType, b: &OclType) -> bool
        ensures { result ≡ conforms self.now a.now b.now }
    {
        match (a, b) {
            (_, OclType::Any) => true,
            (OclType::Void, _) => true,
            (OclType::Bool, OclType::Bool) => true,
            (OclType::Int, OclType::Int) => true,
            (OclType::Str, OclType::Str) => true,
            (OclType::Enum(e), OclType::Enum(f)) => *e == *f,
            (OclType::Class(c), OclType::Class(d)) => self.is_a(*c, *d),
            (OclType::Coll(kind, a), OclType::Coll(other, b)) => {
                *kind == *other && self.conforms(a.get(), b.get())
            }
            _ => false,
        }
    }

    /// The common ancestor of two classes that has the greatest number.
    fn greatest_common(&self, a: ClassNo, b: ClassNo) -> Option<ClassNo>
        requires { a < length self.now.classes }
        ensures { result ≡ greatest_by (λ c. c) (common_ancestors self.now a b) }
    {
        let mut best = None;
        'ancestors: for class in self.ancestors(a) {
            best = greater_if(best, self.is_a(b, *class), *class);
        }
        best
    }

    /// Whether a class inherits from another where that is an ancestor of a third.
    fn covers(&self, class: ClassNo, other: ClassNo, b: ClassNo) -> bool
        ensures { result ≡ (not (is_a self.now b other) || is_a self.now class other) }
    {
        !self.is_a(b, other) || self.is_a(class, other)
    }

    /// Whether a class inherits from those of some classes that are ancestors of another.
    fn covers_all(&self, class: ClassNo, others: &[ClassNo], b: ClassNo) -> bool
        ensures { result ≡ list_all (λ other. not (is_a self.now b other) || is_a self.now class other) others.now }
    {
        others.iter().all(|other| self.covers(class, *other, b))
    }

    /// Whether a class inherits from all common ancestors of two classes.
    fn is_lowest(&self, class: ClassNo, a: ClassNo, b: ClassNo) -> bool
        requires { a < length self.now.classes }
        ensures { result ≡ list_all (is_a self.now class) (common_ancestors self.now a b) }
    {
        self.covers_all(class, self.ancestors(a), b)
    }

    /// A class, if it inherits from all common ancestors of two classes.
    fn if_lowest(&self, class: Option<ClassNo>, a: ClassNo, b: ClassNo) -> Option<ClassNo>
        requires { a < length self.now.classes }
        ensures { result ≡ option_and_then (λ c. if list_all (is_a self.now c) (common_ancestors self.now a b) then Some c else None) class }
    {
        let class = class?;
        if self.is_lowest(class, a, b) {
            Some(class)
        } else {
            None
        }
    }

    /// The common ancestor of two classes of the model that inherits from all others.
    fn lowest_inside(&self, a: ClassNo, b: ClassNo) -> Option<ClassNo>
        requires { a < length self.now.classes }
        ensures { result ≡ lowest self.now (common_ancestors self.now a b) }
    {
        self.has_numbers_in_range();
        self.if_lowest(self.greatest_common(a, b), a, b)
    }

    /// The common ancestor of two classes that inherits from all others. A class that the model has
    /// not has only itself.
    fn lowest(&self, a: ClassNo, b: ClassNo) -> Option<ClassNo>
        ensures { result ≡ lowest self.now (common_ancestors self.now a b) }
    {
        self.has_numbers_in_range();
        if a < self.class_count() {
            return self.lowest_inside(a, b);
        }
        if a == b { Some(a) } else { None }
    }

    /// The type that two types have in common: the one to which the other conforms; else of two
    /// classes their only least common ancestor; else of two collections of one kind that kind of
    /// what their elements have in common; else `OclAny`.
    pub fn join_types(&self, alloc: Global, a: &OclType, b: &OclType) -> Result<OclType, AllocError>
        ensures { IfOk result (λ t. t ≡ join self.now a.now b.now) }
    {
        if self.conforms(a, b) {
            return b.try_copy(alloc);
        }
        if self.conforms(b, a) {
            return a.try_copy(alloc);
        }
        match (a, b) {
            (OclType::Class(c), OclType::Class(d)) => {
                Ok(self.lowest(*c, *d).map_or(OclType::Any, OclType::Class))
            }
            (OclType::Coll(kind, a), OclType::Coll(other, b)) if *kind == *other => {
                let element = self.join_types(alloc, a.get(), b.get())?;
                Ok(OclType::Coll(*kind, Boxed::new(alloc, element)?))
            }
            _ => Ok(OclType::Any),
        }
    }
}
