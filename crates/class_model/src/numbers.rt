ghost use Rattle.std.specs.Prelude.{◌≡◌};
ghost use Rattle.class_model.specs.Ends.{opposite};

/// The number of a class. Parents have smaller numbers.
pub type ClassNo = u32;

/// The number of a stored attribute, counted class by class.
pub type AttrNo = u32;

/// The number of a derived attribute, counted class by class.
pub type DerNo = u32;

/// The number of a declaration of an operation, counted class by class.
pub type OpNo = u32;

/// The number of an association, in the order of the text.
pub type AssocNo = u32;

/// An end of an association.
#[derive(Clone, Copy, Debug, PartialEq, Eq, PartialOrd, Ord, Hash)]
pub enum End {
    First,
    Second,
}

impl End {
    /// The other end.
    pub fn opposite(self) -> End
        ensures { result ≡ opposite self }
    {
        match self {
            End::First => End::Second,
            End::Second => End::First,
        }
    }
}
