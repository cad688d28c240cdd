ghost use Rattle.std.specs.Prelude.{◌≡◌};
ghost use Rattle.object_state.specs.Changes.{inverse, link_back, object_back, unbinding};

use crate::Variable;
use class_model::{AssocNo, AttrNo, ClassNo};
use ocl_values::{ObjNo, Text, Value};
use use_lists::Items;

/// An object that comes or goes, and the counter of objects before and after.
#[derive(Debug, Drop, PartialEq, Eq)]
pub struct ObjectChange {
    pub object: ObjNo,
    pub name: Text,
    pub class: ClassNo,
    /// One value for each stored attribute of the class, in the order of its attributes.
    pub slots: Items<Value>,
    pub before: u32,
    pub after: u32,
}

/// A link that comes or goes, and the counter of stamps before and after.
#[derive(Clone, Copy, Debug, PartialEq, Eq)]
pub struct LinkChange {
    pub assoc: AssocNo,
    pub first: ObjNo,
    pub second: ObjNo,
    pub stamp: u32,
    pub before: u32,
    pub after: u32,
}

/// A change of a state. It carries what it takes to be undone.
#[derive(Debug, Drop, PartialEq, Eq)]
pub enum Change {
    Create(ObjectChange),
    Remove(ObjectChange),
    SetSlot {
        object: ObjNo,
        attr: AttrNo,
        old: Value,
        new: Value,
    },
    Link(LinkChange),
    Unlink(LinkChange),
    Bind {
        name: Text,
        old: Option<Variable>,
        new: Variable,
    },
    Unbind {
        name: Text,
        old: Variable,
    },
}

impl ObjectChange {
    /// The same object with the counter's values exchanged.
    fn back(self) -> ObjectChange
        ensures { result ≡ object_back self }
    {
        ObjectChange {
            object: self.object,
            name: self.name,
            class: self.class,
            slots: self.slots,
            before: self.after,
            after: self.before,
        }
    }
}

impl LinkChange {
    /// The same link with the counter's values exchanged.
    fn back(self) -> LinkChange
        ensures { result ≡ link_back self }
    {
        LinkChange {
            before: self.after,
            after: self.before,
            ..self
        }
    }
}

/// What takes a binding back.
fn unbinding(name: Text, new: Variable, old: Option<Variable>) -> Change
    ensures { result ≡ unbinding name new old }
{
    match old {
        None => Change::Unbind { name, old: new },
        Some(old) => Change::Bind {
            name,
            old: Some(new),
            new: old,
        },
    }
}

impl Change {
    /// The change that takes this one back.
    pub fn inverse(self) -> Change
        ensures { result ≡ inverse self }
    {
        match self {
            Change::Create(new) => Change::Remove(new.back()),
            Change::Remove(old) => Change::Create(old.back()),
            Change::SetSlot {
                object,
                attr,
                old,
                new,
            } => Change::SetSlot {
                object,
                attr,
                old: new,
                new: old,
            },
            Change::Link(new) => Change::Unlink(new.back()),
            Change::Unlink(old) => Change::Link(old.back()),
            Change::Bind { name, old, new } => unbinding(name, new, old),
            Change::Unbind { name, old } => Change::Bind {
                name,
                old: None,
                new: old,
            },
        }
    }
}
