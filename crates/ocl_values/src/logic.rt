ghost use Rattle.std.specs.Prelude.{◌≡◌};
ghost use Rattle.ocl_values.specs.Logic.{and_table, at, entry, implies_table, in_row, not_row, or_table, truth_of, value_of, xor_table};
ghost use Rattle.ocl_values.specs.Shape.{IsWellMade};

use crate::Value;

// The four truth values, in the order of the tables.
#[derive(Clone, Copy, PartialEq, Eq)]
enum Truth {
    False,
    True,
    Null,
    Invalid,
}

// What a value is among the four; what is no truth value counts as invalid.
fn truth_of(v: &Value) -> Truth
    ensures { result ≡ truth_of v.now }
{
    match v {
        Value::Bool(b) => { if *b { Truth::True } else { Truth::False } }
        Value::Null => Truth::Null,
        _ => Truth::Invalid,
    }
}

fn value_of(truth: Truth) -> Value
    ensures { result ≡ value_of truth }
{
    match truth {
        Truth::False => Value::Bool(false),
        Truth::True => Value::Bool(true),
        Truth::Null => Value::Null,
        Truth::Invalid => Value::Invalid,
    }
}

fn conjunction(a: Truth, b: Truth) -> Value
    ensures { result ≡ at and_table a b }
{
    match (a, b) {
        (Truth::False, _) => Value::Bool(false),
        (_, Truth::False) => Value::Bool(false),
        (Truth::Invalid, _) => Value::Invalid,
        (_, Truth::Invalid) => Value::Invalid,
        (Truth::Null, _) => Value::Null,
        (_, Truth::Null) => Value::Null,
        (Truth::True, Truth::True) => Value::Bool(true),
    }
}

fn negation(a: Truth) -> Truth
    ensures { result ≡ truth_of (in_row not_row a) }
{
    match a {
        Truth::False => Truth::True,
        Truth::True => Truth::False,
        Truth::Null => Truth::Null,
        Truth::Invalid => Truth::Invalid,
    }
}

/// `a and b` (OCL 2.3.1, 11.5.4): false where a side is, else invalid where a side is, else null
/// where a side is.
pub fn and(a: &Value, b: &Value) -> Value
    ensures value { result ≡ entry and_table a.now b.now }
    ensures well_made { IsWellMade result }
{
    conjunction(truth_of(a), truth_of(b))
}

fn disjunction(a: Truth, b: Truth) -> Value
    ensures { result ≡ at or_table a b }
{
    match (a, b) {
        (Truth::True, _) => Value::Bool(true),
        (_, Truth::True) => Value::Bool(true),
        (Truth::Invalid, _) => Value::Invalid,
        (_, Truth::Invalid) => Value::Invalid,
        (Truth::Null, _) => Value::Null,
        (_, Truth::Null) => Value::Null,
        (Truth::False, Truth::False) => Value::Bool(false),
    }
}

/// `a or b`: true where a side is, else invalid where a side is, else null where a side is.
pub fn or(a: &Value, b: &Value) -> Value
    ensures value { result ≡ entry or_table a.now b.now }
    ensures dual { in_row not_row (truth_of result)
        ≡ entry and_table (in_row not_row (truth_of a.now)) (in_row not_row (truth_of b.now)) }
    ensures well_made { IsWellMade result }
{
    disjunction(truth_of(a), truth_of(b))
}

fn exclusion(a: Truth, b: Truth) -> Value
    ensures { result ≡ at xor_table a b }
{
    match (a, b) {
        (Truth::Invalid, _) => Value::Invalid,
        (_, Truth::Invalid) => Value::Invalid,
        (Truth::Null, _) => Value::Null,
        (_, Truth::Null) => Value::Null,
        (Truth::False, Truth::True) => Value::Bool(true),
        (Truth::True, Truth::False) => Value::Bool(true),
        _ => Value::Bool(false),
    }
}

/// `a xor b`: invalid where a side is, else null where a side is, else whether the sides differ.
pub fn xor(a: &Value, b: &Value) -> Value
    ensures value { result ≡ entry xor_table a.now b.now }
    ensures well_made { IsWellMade result }
{
    exclusion(truth_of(a), truth_of(b))
}

fn implication(a: Truth, b: Truth) -> Value
    ensures { result ≡ at implies_table a b }
{
    disjunction(negation(a), b)
}

/// `a implies b`, which is `(not a) or b`.
pub fn implies(a: &Value, b: &Value) -> Value
    ensures value { result ≡ entry implies_table a.now b.now }
    ensures by_or { result ≡ entry or_table (in_row not_row (truth_of a.now)) b.now }
    ensures well_made { IsWellMade result }
{
    implication(truth_of(a), truth_of(b))
}

/// `not a`, which keeps null and invalid.
pub fn not(a: &Value) -> Value
    ensures value { result ≡ in_row not_row (truth_of a.now) }
    ensures well_made { IsWellMade result }
{
    value_of(negation(truth_of(a)))
}
