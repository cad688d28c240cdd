ghost use Rattle.std.specs.Prelude.{◌≡◌, ◌==◌, ◌++◌, slice_index, [], ◌∷◌, IfOk, length, map, pos, take, drop};
ghost use Rattle.std.specs.Str.{chars};
ghost use Rattle.std.specs.Char.{to_ascii_lowercase, to_ascii_uppercase};
ghost use Rattle.ocl_values.specs.Strings.{index_of, integer_of, of_text, str_op_value, string_of, substring, to_string_value};
ghost use Rattle.ocl_values.specs.declared.value.Kind.TheVariants.{Sequence};
ghost use Rattle.ocl_values.specs.declared.value.Value.TheVariants.{Coll, Int, Str};
ghost use Rattle.ocl_values.specs.Shape.{IsWellMade};

use crate::integer::checked;
use crate::printing::bool_text;
use crate::{Kind, Text, Value};
use std::alloc::{AllocError, Global};
use use_lists::Items;

/// The operations of String (OCL 2.3.1, 11.5.3), over its characters, which count from 1.
#[derive(Clone, Copy, Debug, PartialEq, Eq)]
pub enum StrOp {
    Size,
    Concat,
    /// The characters from one place to another, both included.
    Substring,
    At,
    /// The first place of a String, and 0 where it does not occur. The empty String is at 1.
    IndexOf,
    /// ASCII letters in upper case.
    Upper,
    /// ASCII letters in lower case.
    Lower,
    /// The Sequence of the characters, each as a String.
    Characters,
    /// The integer that an optional minus sign and digits write.
    ToInteger,
    Lt,
    Le,
    Gt,
    Ge,
}

fn concatenation(alloc: Global, s: &str, t: &str) -> Result<Value, AllocError>
    ensures { IfOk result (λ v. v ≡ string_of (chars s.now ++ chars t.now)) }
{
    let mut text = String::from_str(alloc, s)?;
    text.push_str(t)?;
    Ok(Value::Str(Text::from_string(text)))
}

fn uppercase(alloc: Global, s: &str) -> Result<Value, AllocError>
    ensures { IfOk result (λ v. v ≡ string_of (map to_ascii_uppercase (chars s.now))) }
{
    let mut text = String::from_str(alloc, s)?;
    text.make_ascii_uppercase();
    Ok(Value::Str(Text::from_string(text)))
}

fn lowercase(alloc: Global, s: &str) -> Result<Value, AllocError>
    ensures { IfOk result (λ v. v ≡ string_of (map to_ascii_lowercase (chars s.now))) }
{
    let mut text = String::from_str(alloc, s)?;
    text.make_ascii_lowercase();
    Ok(Value::Str(Text::from_string(text)))
}

fn length_of(s: &str) -> usize
    ensures { result ≡ length (chars s.now) }
{
    s.chars().count()
}

// The characters from the one after the first `skipped` on, `count` of them at most.
fn part(alloc: Global, s: &str, skipped: usize, count: usize) -> Result<Value, AllocError>
    ensures { IfOk result (λ v. v ≡ string_of (take count (drop skipped (chars s.now)))) }
{
    let text: String = s.chars().skip(skipped).take(count).collect(alloc)?;
    Ok(Value::Str(Text::from_string(text)))
}

fn substring(alloc: Global, s: &str, first: i128, last: i128) -> Result<Value, AllocError>
    ensures { IfOk result (λ v. v ≡ substring (chars s.now) first last) }
{
    if 1 <= first && first <= last && last <= length_of(s) as i128 {
        part(alloc, s, (first - 1) as usize, (last - first) as usize + 1)
    } else {
        Ok(Value::Invalid)
    }
}

fn index_of(s: &str, t: &str) -> usize
    ensures { result ≡ index_of (chars t.now) (chars s.now) }
{
    match s.find(t) {
        Some(at) => length_of(&s[..at]) + 1,
        None => 0,
    }
}

fn character(alloc: Global, c: char) -> Result<Value, AllocError>
    ensures { IfOk result (λ v. v ≡ string_of (c ∷ [])) }
{
    let mut text = String::new(alloc);
    text.push(c)?;
    Ok(Value::Str(Text::from_string(text)))
}

fn characters(alloc: Global, s: &str) -> Result<Value, AllocError>
    ensures { IfOk result (λ v. v ≡ Coll Sequence (map (λ c. string_of (c ∷ [])) (chars s.now))) }
{
    let mut list = Vec::new(alloc);
    'each: for c in s.chars() {
        list.push(character(alloc, c)?)?;
    }
    Ok(Value::Coll(Kind::Sequence, Items::from_vec(list)))
}

fn has_plus(s: &str) -> bool
    ensures { result ≡ (slice_index s.now 0 == 43) }
{
    matches!(s.as_bytes(), [b'+', ..])
}

fn integer_of(s: &str) -> Value
    ensures { result ≡ integer_of (chars s.now) }
{
    if has_plus(s) {
        return Value::Invalid;
    }
    checked(s.parse::<i128>().ok())
}

fn alone(alloc: Global, op: StrOp, s: &str) -> Result<Value, AllocError>
    ensures { IfOk result (λ v. v ≡ of_text op s.now []) }
{
    match op {
        StrOp::Size => Ok(Value::Int(length_of(s) as i128)),
        StrOp::Upper => uppercase(alloc, s),
        StrOp::Lower => lowercase(alloc, s),
        StrOp::Characters => characters(alloc, s),
        StrOp::ToInteger => Ok(integer_of(s)),
        _ => Ok(Value::Invalid),
    }
}

fn with_string(alloc: Global, op: StrOp, s: &str, t: &str) -> Result<Value, AllocError>
    ensures { IfOk result (λ v. v ≡ of_text op s.now (Str t.now ∷ [])) }
{
    match op {
        StrOp::Concat => concatenation(alloc, s, t),
        StrOp::IndexOf => Ok(Value::Int(index_of(s, t) as i128)),
        StrOp::Lt => Ok(Value::Bool(s.cmp(t).is_lt())),
        StrOp::Le => Ok(Value::Bool(s.cmp(t).is_le())),
        StrOp::Gt => Ok(Value::Bool(s.cmp(t).is_gt())),
        StrOp::Ge => Ok(Value::Bool(s.cmp(t).is_ge())),
        _ => Ok(Value::Invalid),
    }
}

fn with_integer(alloc: Global, op: StrOp, s: &str, i: i128) -> Result<Value, AllocError>
    ensures { IfOk result (λ v. v ≡ of_text op s.now (Int i ∷ [])) }
{
    match op {
        StrOp::At => substring(alloc, s, i, i),
        _ => Ok(Value::Invalid),
    }
}

fn with_integers(
    alloc: Global,
    op: StrOp,
    s: &str,
    first: i128,
    last: i128,
) -> Result<Value, AllocError>
    ensures { IfOk result (λ v. v ≡ of_text op s.now (Int first ∷ Int last ∷ [])) }
{
    match op {
        StrOp::Substring => substring(alloc, s, first, last),
        _ => Ok(Value::Invalid),
    }
}

fn of_text(alloc: Global, op: StrOp, s: &str, args: &[Value]) -> Result<Value, AllocError>
    ensures { IfOk result (λ v. v ≡ of_text op s.now args.now) }
{
    match args {
        [] => alone(alloc, op, s),
        [Value::Str(t)] => with_string(alloc, op, s, t.as_str()),
        [Value::Int(i)] => with_integer(alloc, op, s, *i),
        [Value::Int(first), Value::Int(last)] => with_integers(alloc, op, s, *first, *last),
        _ => Ok(Value::Invalid),
    }
}

/// An operation of String, of a source and its arguments. A source or argument that is null,
/// invalid or of another kind makes the result invalid, and so does another number of arguments.
pub fn str_op(alloc: Global, op: StrOp, source: &Value, args: &[Value]) -> Result<Value, AllocError>
    ensures value { IfOk result (λ v. v ≡ str_op_value op source.now args.now) }
    ensures well_made { IfOk result IsWellMade }
{
    match source {
        Value::Str(text) => of_text(alloc, op, text.as_str(), args),
        _ => Ok(Value::Invalid),
    }
}

/// `toString()` of an integer or a truth value; invalid of any other value.
pub fn text_value(alloc: Global, v: &Value) -> Result<Value, AllocError>
    ensures value { IfOk result (λ text. text ≡ to_string_value v.now) }
    ensures well_made { IfOk result IsWellMade }
{
    match v {
        Value::Int(n) => Ok(Value::Str(Text::from_string(format!(in alloc; "{n}")?))),
        Value::Bool(b) => Ok(Value::Str(Text::copy_of(alloc, bool_text(*b))?)),
        _ => Ok(Value::Invalid),
    }
}
