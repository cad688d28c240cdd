ghost use Rattle.std.specs.Prelude.{◌≡◌, ◌==◌, ℕ, List, [], ◌∷◌, ◌++◌, Option, OnOk, if◌then◌else◌, map};
ghost use Rattle.std.specs.Option.{option_copied, option_map};
ghost use Rattle.std.specs.Fmt.{signed_decimal};
ghost use Rattle.std.specs.List.{flat_map, join_with_byte};
ghost use Rattle.ocl_values.specs.Printing.{escaped, kind_name, literal_text, object_text, quoted, value_text};
ghost use Rattle.ocl_values.specs.Strings.{bool_text};

use crate::{EnumNo, Kind, LitNo, ObjNo, Value};
use itoa::Buffer;
use std::alloc::{AllocError, Global};

/// The names that printing needs: those of live objects and of enumeration literals.
pub trait Names {
    ghost object_name: { Self → ℕ → Option (List ℕ) };

    ghost literal_name: { Self → ℕ → ℕ → Option (List ℕ × List ℕ) };

    /// The name of a live object; none of a destroyed one.
    fn object(&self, object: ObjNo) -> Option<&str>
        ensures { option_copied result ≡ object_name self.now object };

    /// The enumeration's name and the literal's; none where there is no such literal.
    fn literal(&self, enumeration: EnumNo, literal: LitNo) -> Option<(&str, &str)>
        ensures { option_map (λ names. (names.0.now, names.1.now)) result ≡ literal_name self.now enumeration literal };
}

/// The name of a kind of collections (OCL 2.3.1, clause 8.2).
pub fn kind_name(kind: Kind) -> &'static str
    ensures { result.now ≡ kind_name kind }
{
    match kind {
        Kind::Set => "Set",
        Kind::OrderedSet => "OrderedSet",
        Kind::Bag => "Bag",
        Kind::Sequence => "Sequence",
    }
}

/// The word for a truth value.
pub(crate) fn bool_text(b: bool) -> &'static str
    ensures { result.now ≡ bool_text b }
{
    if b { "true" } else { "false" }
}

fn append(text: &str, out: &mut Vec<u8>) -> Result<(), AllocError>
    ensures { OnOk result (out.new.items ≡ out.old.items ++ text.now) }
{
    out.extend_from_slice(text.as_bytes())
}

// A byte of a String, with a backslash before it where it needs one.
fn append_escaped(byte: u8, out: &mut Vec<u8>) -> Result<(), AllocError>
    ensures { OnOk result (out.new.items ≡ out.old.items ++ escaped byte) }
{
    match byte {
        b'\\' => append("\\\\", out),
        b'\'' => append("\\'", out),
        b'\n' => append("\\n", out),
        b'\t' => append("\\t", out),
        _ => {
            out.push(byte)?;
            Ok(())
        }
    }
}

fn append_all_escaped(bytes: &[u8], out: &mut Vec<u8>) -> Result<(), AllocError>
    ensures { OnOk result (out.new.items ≡ out.old.items ++ flat_map escaped bytes.now) }
{
    'escape: for byte in bytes {
        append_escaped(*byte, out)?;
    }
    Ok(())
}

fn append_quoted(text: &str, out: &mut Vec<u8>) -> Result<(), AllocError>
    ensures { OnOk result (out.new.items ≡ out.old.items ++ quoted text.now) }
{
    append("'", out)?;
    append_all_escaped(text.as_bytes(), out)?;
    append("'", out)
}

fn append_integer(n: i128, out: &mut Vec<u8>) -> Result<(), AllocError>
    ensures { OnOk result (out.new.items ≡ out.old.items ++ signed_decimal n) }
{
    let mut digits = Buffer::new();
    append(digits.format(n), out)
}

fn append_literal(names: Option<(&str, &str)>, out: &mut Vec<u8>) -> Result<(), AllocError>
    ensures { OnOk result (out.new.items
        ≡ out.old.items ++ literal_text (option_map (λ names. (names.0.now, names.1.now)) names.entry)) }
{
    match names {
        Some((enumeration, literal)) => {
            append(enumeration, out)?;
            append("::", out)?;
            append(literal, out)
        }
        None => append("invalid", out),
    }
}

fn append_object(object: ObjNo, name: Option<&str>, out: &mut Vec<u8>) -> Result<(), AllocError>
    ensures { OnOk result (out.new.items ≡ out.old.items ++ object_text object (option_copied name.entry)) }
{
    match name {
        Some(name) => append(name, out),
        None => {
            let mut digits = Buffer::new();
            append("destroyed(", out)?;
            append(digits.format(object), out)?;
            append(")", out)
        }
    }
}

// The comma before an element that is not the first.
fn append_separator(at: usize, out: &mut Vec<u8>) -> Result<(), AllocError>
    ensures { OnOk result (out.new.items ≡ out.old.items ++ (if at == 0 then [] else 44 ∷ [])) }
{
    if at == 0 { Ok(()) } else { append(",", out) }
}

/// Appends the text of a value to out. After want of memory, out is in no stated condition.
#[cycle(print)]
pub fn print<N: Names>(
    alloc: Global,
    v: &Value,
    names: &N,
    out: &mut Vec<u8>,
) -> Result<(), AllocError>
    ensures { OnOk result (out.new.items
        ≡ out.old.items ++ value_text (N.object_name names.now) (N.literal_name names.now) v.now) }
{
    match v {
        Value::Null => append("null", out),
        Value::Invalid => append("invalid", out),
        Value::Bool(b) => append(bool_text(*b), out),
        Value::Int(n) => append_integer(*n, out),
        Value::Str(text) => append_quoted(text.as_str(), out),
        Value::Enum(enumeration, literal) => append_literal(
            names.literal(*enumeration, *literal),
            out,
        ),
        Value::Obj(object) => append_object(*object, names.object(*object), out),
        Value::Coll(kind, items) => {
            append(kind_name(*kind), out)?;
            append("{", out)?;
            print_elements(alloc, items.as_slice(), names, out)?;
            append("}", out)?;
            Ok(())
        }
    }
}

#[cycle(print)]
fn print_elements<N: Names>(
    alloc: Global,
    all: &[Value],
    names: &N,
    out: &mut Vec<u8>,
) -> Result<(), AllocError>
    ensures { OnOk result (out.new.items
        ≡ out.old.items ++ join_with_byte 44 (map (value_text (N.object_name names.now) (N.literal_name names.now)) all.now)) }
{
    'each: for (at, v) in all.iter().enumerate() {
        append_separator(at, out)?;
        print(alloc, v, names, out)?;
    }
    Ok(())
}
