ghost use Rattle.std.specs.Prelude.{◌≡◌};
ghost use Rattle.ocl_scope.specs.Calls.{definedness, is_new_name, type_test};

use ocl_core::{PlainOp, TypeTest};

/// The test of a type that a name stands for.
pub fn type_test(name: &str) -> Option<TypeTest>
    ensures { result ≡ type_test name.now }
{
    match name {
        "oclIsTypeOf" => Some(TypeTest::IsTypeOf),
        "oclIsKindOf" => Some(TypeTest::IsKindOf),
        "oclAsType" => Some(TypeTest::AsType),
        _ => None,
    }
}

/// The test of definedness that a name stands for.
pub fn definedness(name: &str) -> Option<PlainOp>
    ensures { result ≡ definedness name.now }
{
    match name {
        "oclIsUndefined" | "isUndefined" => Some(PlainOp::IsUndefined),
        "isDefined" => Some(PlainOp::IsDefined),
        "oclIsInvalid" => Some(PlainOp::IsInvalid),
        _ => None,
    }
}

pub(crate) fn is_new_name(name: &str) -> bool
    ensures { result ≡ is_new_name name.now }
{
    name == "oclIsNew"
}
