ghost use Rattle.std.specs.Prelude.{◌≡◌, false};
ghost use Rattle.std.specs.Option.{option_map_or};
ghost use Rattle.ocl_values.specs.Shape.{IsWellMade};
ghost use Rattle.ocl_operations.specs.Types.{answered, is_any, is_kind_of, is_of_model, is_same, plain_tested, tested, type_of};

use class_model::{ClassModel, OclType};
use ocl_core::TypeTest;
use ocl_values::Value;

/// The type that a value has itself, where the value tells it.
fn type_of(value: &Value) -> Option<OclType>
    ensures { result ≡ type_of value.now }
{
    match value {
        Value::Bool(_) => Some(OclType::Bool),
        Value::Int(_) => Some(OclType::Int),
        Value::Str(_) => Some(OclType::Str),
        Value::Enum(number, _) => Some(OclType::Enum(*number)),
        _ => None,
    }
}

/// Whether two types are one; only those that a value can have.
fn is_same(a: &OclType, b: &OclType) -> bool
    ensures { result ≡ is_same a.now b.now }
{
    match (a, b) {
        (OclType::Bool, OclType::Bool) => true,
        (OclType::Int, OclType::Int) => true,
        (OclType::Str, OclType::Str) => true,
        (OclType::Enum(a), OclType::Enum(b)) => *a == *b,
        (OclType::Class(a), OclType::Class(b)) => *a == *b,
        _ => false,
    }
}

fn is_any(a: &OclType) -> bool
    ensures { result ≡ is_any a.now }
{
    matches!(a, OclType::Any)
}

fn is_kind_of(model: &ClassModel, own: &Option<OclType>, asked: &OclType) -> bool
    ensures { result ≡ is_kind_of model.now own.now asked.now }
{
    match own {
        Some(own) => model.conforms(own, asked),
        None => is_any(asked),
    }
}

fn is_type_of(own: &Option<OclType>, asked: &OclType) -> bool
    ensures { result ≡ option_map_or (λ o. is_same o asked.now) own.now false }
{
    match own {
        Some(own) => is_same(own, asked),
        None => false,
    }
}

/// Whether the class or enumeration of a type is one of the model.
fn is_of_model(model: &ClassModel, asked: &OclType) -> bool
    ensures { result ≡ is_of_model model.now asked.now }
{
    match asked {
        OclType::Class(class) => *class < model.class_count(),
        OclType::Enum(number) => *number < model.enum_count(),
        _ => true,
    }
}

fn answered(
    model: &ClassModel,
    test: TypeTest,
    asked: &OclType,
    own: &Option<OclType>,
    value: Value,
) -> Value
    requires { IsWellMade value }
    ensures value { result ≡ answered model.now test asked.now own.now value }
    ensures well_made { IsWellMade result }
{
    match test {
        TypeTest::IsTypeOf => Value::Bool(is_type_of(own, asked)),
        TypeTest::IsKindOf => Value::Bool(is_kind_of(model, own, asked)),
        TypeTest::AsType => {
            if is_kind_of(model, own, asked) {
                value
            } else {
                Value::Invalid
            }
        }
    }
}

/// The answer about a value, and the type that it has itself: `oclIsTypeOf` is true of that type
/// alone, `oclIsKindOf` of each to which it conforms, and `oclAsType` gives the value where
/// `oclIsKindOf` is true, else invalid. Of what is no type of the model it is invalid.
pub fn tested(
    model: &ClassModel,
    test: TypeTest,
    asked: &OclType,
    own: Option<OclType>,
    value: Value,
) -> Value
    requires { IsWellMade value }
    ensures value { result ≡ tested model.now test asked.now own value }
    ensures well_made { IsWellMade result }
{
    if is_of_model(model, asked) {
        answered(model, test, asked, &own, value)
    } else {
        Value::Invalid
    }
}

/// The answer about a value that is no object; of null and of invalid it is invalid.
pub fn plain_tested(model: &ClassModel, test: TypeTest, asked: &OclType, value: Value) -> Value
    requires { IsWellMade value }
    ensures value { result ≡ plain_tested model.now test asked.now value }
    ensures well_made { IsWellMade result }
{
    match value {
        Value::Null => Value::Invalid,
        Value::Invalid => Value::Invalid,
        value => {
            let own = type_of(&value);
            tested(model, test, asked, own, value)
        }
    }
}
