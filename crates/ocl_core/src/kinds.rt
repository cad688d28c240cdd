ghost use Rattle.std.specs.Prelude.{◌≡◌};
ghost use Rattle.ocl_core.specs.Kinds.{collected_kind, sorted_kind};

use ocl_values::Kind;

/// The kind of what is collected of a collection (OCL 2.3.1, 11.9).
pub fn collected_kind(kind: Kind) -> Kind
    ensures { result ≡ collected_kind kind }
{
    match kind {
        Kind::Set | Kind::Bag => Kind::Bag,
        Kind::OrderedSet | Kind::Sequence => Kind::Sequence,
    }
}

/// The kind of a collection that is sorted.
pub fn sorted_kind(kind: Kind) -> Kind
    ensures { result ≡ sorted_kind kind }
{
    match kind {
        Kind::Set | Kind::OrderedSet => Kind::OrderedSet,
        Kind::Bag | Kind::Sequence => Kind::Sequence,
    }
}
