ghost use Rattle.std.specs.Prelude.{◌≡◌, IsTrue};

use class_model::OclType;

/// Whether two types are the same.
pub(crate) fn are_same(a: &OclType, b: &OclType) -> bool
    ensures { IsTrue result → a.now ≡ b.now }
{
    match (a, b) {
        (OclType::Any, OclType::Any) => true,
        (OclType::Void, OclType::Void) => true,
        (OclType::Bool, OclType::Bool) => true,
        (OclType::Int, OclType::Int) => true,
        (OclType::Str, OclType::Str) => true,
        (OclType::Enum(a), OclType::Enum(b)) => *a == *b,
        (OclType::Class(a), OclType::Class(b)) => *a == *b,
        (OclType::Coll(kind, a), OclType::Coll(other, b)) => {
            *kind == *other && are_same(a.get(), b.get())
        }
        _ => false,
    }
}
