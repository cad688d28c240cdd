ghost use Rattle.std.specs.Prelude.{◌≡◌};
ghost use Rattle.ocl_values.specs.Logic.{is_invalid};

use crate::Text;
use use_lists::Items;

/// The creation number of an object.
pub type ObjNo = u32;

/// The number of an enumeration, in the order of the model.
pub type EnumNo = u32;

/// The number of a literal in its enumeration.
pub type LitNo = u32;

/// The kinds of collections (OCL 2.3.1, 11.6), in the order in which values are ordered.
#[derive(Clone, Copy, Debug, PartialEq, Eq, PartialOrd, Ord)]
pub enum Kind {
    /// Ascending, without repeats.
    Set,
    /// Without repeats; each element keeps its first place.
    OrderedSet,
    /// Ascending.
    Bag,
    Sequence,
}

/// A value of OCL (OCL 2.3.1, clause 11). Its comparisons are one total order over all values.
#[derive(Debug, Drop, PartialEq, Eq, PartialOrd, Ord)]
pub enum Value {
    /// No value.
    Null,
    /// What a computation that failed gives; no collection holds it.
    Invalid,
    Bool(bool),
    Int(i128),
    Str(Text),
    /// A literal of an enumeration.
    Enum(EnumNo, LitNo),
    /// An object, live or destroyed.
    Obj(ObjNo),
    Coll(Kind, Items<Value>),
}

impl Value {
    /// Whether this is `Invalid`; null is not.
    pub fn is_invalid(&self) -> bool
        ensures { result ≡ is_invalid self.now }
    {
        matches!(self, Value::Invalid)
    }
}
