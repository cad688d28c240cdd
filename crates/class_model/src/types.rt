ghost use Rattle.std.specs.Prelude.{◌≡◌, IfOk};

use crate::ClassNo;
use ocl_values::{EnumNo, Kind};
use std::alloc::{AllocError, Global};
use use_lists::Boxed;

/// A type of OCL (OCL 2.3.1, clause 8 and Annex A.2).
#[derive(Debug, Drop, PartialEq, Eq)]
pub enum OclType {
    /// `OclAny`, to which every type conforms.
    Any,
    /// `OclVoid`, which conforms to every type.
    Void,
    Bool,
    Int,
    Str,
    Enum(EnumNo),
    Class(ClassNo),
    Coll(Kind, Boxed<OclType>),
}

impl OclType {
    /// An equal type.
    pub fn try_copy(&self, alloc: Global) -> Result<OclType, AllocError>
        ensures { IfOk result (λ t. t ≡ self.now) }
    {
        Ok(match self {
            OclType::Any => OclType::Any,
            OclType::Void => OclType::Void,
            OclType::Bool => OclType::Bool,
            OclType::Int => OclType::Int,
            OclType::Str => OclType::Str,
            OclType::Enum(number) => OclType::Enum(*number),
            OclType::Class(number) => OclType::Class(*number),
            OclType::Coll(kind, element) => {
                let element = element.get().try_copy(alloc)?;
                OclType::Coll(*kind, Boxed::new(alloc, element)?)
            }
        })
    }
}
