use ocl_values::*;
use std::alloc::{AllocError, Global};
use std::test::Fail;
use use_lists::Items;

/// One live object, `ada` with number 1, and the literals of `Grade`.
struct Sample;

impl Names for Sample {
    ghost use Rattle.std.specs.Prelude.{◌==◌, ◌&&◌, Some, None, codes, if◌then◌else◌};

    ghost object_name = { λ s o. if o == 1 then Some (codes "ada") else None };

    ghost literal_name = { λ s e l. if e == 0 && l == 0 then Some (codes "Grade", codes "junior") else None };

    fn object(&self, object: ObjNo) -> Option<&str> {
        if object == 1 { Some("ada") } else { None }
    }

    fn literal(&self, enumeration: EnumNo, literal: LitNo) -> Option<(&str, &str)> {
        if enumeration == 0 && literal == 0 {
            Some(("Grade", "junior"))
        } else {
            None
        }
    }
}

/// A value as the tables below write it.
#[derive(Clone, Copy, Debug)]
enum Sketch {
    Null,
    Invalid,
    Bool(bool),
    Int(i128),
    Text(&'static str),
    Enum(u32, u32),
    Obj(u32),
    Empty(Kind),
    One(Kind, i128),
    Two(Kind, i128, i128),
}

fn collection(alloc: Global, kind: Kind, numbers: &[i128]) -> Result<Value, AllocError> {
    let mut values = Vec::new(alloc);
    'numbers: for n in numbers {
        values.push(Value::Int(*n))?;
    }
    Ok(Value::Coll(kind, Items::from_vec(values)))
}

fn value_of(alloc: Global, sketch: Sketch) -> Result<Value, AllocError> {
    match sketch {
        Sketch::Null => Ok(Value::Null),
        Sketch::Invalid => Ok(Value::Invalid),
        Sketch::Bool(b) => Ok(Value::Bool(b)),
        Sketch::Int(n) => Ok(Value::Int(n)),
        Sketch::Text(text) => Ok(Value::Str(Text::copy_of(alloc, text)?)),
        Sketch::Enum(enumeration, literal) => Ok(Value::Enum(enumeration, literal)),
        Sketch::Obj(object) => Ok(Value::Obj(object)),
        Sketch::Empty(kind) => collection(alloc, kind, &[]),
        Sketch::One(kind, n) => collection(alloc, kind, &[n]),
        Sketch::Two(kind, m, n) => collection(alloc, kind, &[m, n]),
    }
}

fn shown(alloc: Global, value: &Value) -> Result<Vec<u8>, AllocError> {
    let mut out = Vec::new(alloc);
    print(alloc, value, &Sample, &mut out)?;
    Ok(out)
}

const LEAST: i128 = i128::MIN;

const GREATEST: i128 = i128::MAX;

#[test]
fn sums_and_products(rt: HostRuntime) -> Result<(), Fail> {
    for (op, a, b, want) in [
        (IntOp::Add, 1, 2, "3"),
        (IntOp::Add, GREATEST, 1, "invalid"),
        (IntOp::Sub, 1, 2, "-1"),
        (IntOp::Sub, LEAST, 1, "invalid"),
        (IntOp::Mul, -3, 4, "-12"),
        (IntOp::Mul, LEAST, -1, "invalid"),
        (IntOp::Neg, LEAST, 0, "invalid"),
        (IntOp::Neg, 5, 0, "-5"),
        (IntOp::Abs, -5, 0, "5"),
        (IntOp::Abs, LEAST, 0, "invalid"),
    ] {
        let value = int_op(op, &Value::Int(a), &Value::Int(b));
        assert_eq!(rt;
            shown(rt.alloc(), &value)?.as_slice(),
            want.as_bytes(),
            "at {op:?} {a} {b}"
        );
    }
    Ok(())
}

#[test]
fn quotients_truncate_toward_zero(rt: HostRuntime) -> Result<(), Fail> {
    for (op, a, b, want) in [
        (IntOp::Div, 7, 2, "3"),
        (IntOp::Div, -7, 2, "-3"),
        (IntOp::Div, 7, -2, "-3"),
        (IntOp::Div, 7, 0, "invalid"),
        (IntOp::Div, LEAST, -1, "invalid"),
        (IntOp::Mod, 7, 2, "1"),
        (IntOp::Mod, -7, 2, "-1"),
        (IntOp::Mod, 7, -2, "1"),
        (IntOp::Mod, 7, 0, "invalid"),
        (IntOp::Mod, LEAST, -1, "invalid"),
    ] {
        let value = int_op(op, &Value::Int(a), &Value::Int(b));
        assert_eq!(rt;
            shown(rt.alloc(), &value)?.as_slice(),
            want.as_bytes(),
            "at {op:?} {a} {b}"
        );
    }
    Ok(())
}

#[test]
fn integers_are_ordered(rt: HostRuntime) -> Result<(), Fail> {
    for (op, a, b, want) in [
        (IntOp::Lt, 1, 2, "true"),
        (IntOp::Lt, 2, 2, "false"),
        (IntOp::Le, 2, 2, "true"),
        (IntOp::Gt, 2, 1, "true"),
        (IntOp::Gt, 2, 2, "false"),
        (IntOp::Ge, 1, 2, "false"),
        (IntOp::Max, -1, 1, "1"),
        (IntOp::Min, -1, 1, "-1"),
    ] {
        let value = int_op(op, &Value::Int(a), &Value::Int(b));
        assert_eq!(rt;
            shown(rt.alloc(), &value)?.as_slice(),
            want.as_bytes(),
            "at {op:?} {a} {b}"
        );
    }
    Ok(())
}

fn is_invalid_beside(op: IntOp, other: &Value) -> bool {
    let one = Value::Int(1);
    int_op(op, other, &one) == Value::Invalid && int_op(op, &one, other) == Value::Invalid
}

#[test]
fn integer_operations_on_null_and_invalid(rt: HostRuntime) {
    for op in [
        IntOp::Add,
        IntOp::Sub,
        IntOp::Mul,
        IntOp::Div,
        IntOp::Mod,
        IntOp::Lt,
        IntOp::Le,
        IntOp::Gt,
        IntOp::Ge,
        IntOp::Max,
        IntOp::Min,
    ] {
        assert!(rt; is_invalid_beside(op, &Value::Null), "at {op:?}");
        assert!(rt; is_invalid_beside(op, &Value::Invalid), "at {op:?}");
    }
    assert!(rt; int_op(IntOp::Neg, &Value::Null, &Value::Int(1)) == Value::Invalid);
    assert!(rt; int_op(IntOp::Abs, &Value::Int(-1), &Value::Null) == Value::Int(1));
}

fn string_result(
    alloc: Global,
    op: StrOp,
    source: Sketch,
    first: Option<Sketch>,
    second: Option<Sketch>,
) -> Result<Vec<u8>, AllocError> {
    let mut arguments = Vec::new(alloc);
    if let Some(first) = first {
        arguments.push(value_of(alloc, first)?)?;
    }
    if let Some(second) = second {
        arguments.push(value_of(alloc, second)?)?;
    }
    let source = value_of(alloc, source)?;
    let value = str_op(alloc, op, &source, arguments.as_slice())?;
    shown(alloc, &value)
}

#[test]
fn strings_have_characters(rt: HostRuntime) -> Result<(), Fail> {
    use Sketch::{Null, Text};
    for (op, source, first, second, want) in [
        (StrOp::Size, Text(""), None, None, "0"),
        (StrOp::Size, Text("nä€𝄞"), None, None, "4"),
        (StrOp::Size, Text("a"), Some(Null), None, "invalid"),
        (StrOp::Size, Null, None, None, "invalid"),
        (
            StrOp::Characters,
            Text("nä"),
            None,
            None,
            "Sequence{'n','ä'}",
        ),
        (StrOp::Upper, Text("straße z9"), None, None, "'STRAßE Z9'"),
        (StrOp::Lower, Text("ÄRA Z9"), None, None, "'Ära z9'"),
    ] {
        let given = string_result(rt.alloc(), op, source, first, second)?;
        assert_eq!(rt;
            given.as_slice(),
            want.as_bytes(),
            "at {op:?} of {source:?}"
        );
    }
    Ok(())
}

#[test]
fn strings_are_joined_and_ordered(rt: HostRuntime) -> Result<(), Fail> {
    use Sketch::{Invalid, Null, Text};
    for (op, source, first, second, want) in [
        (StrOp::Concat, Text("nä"), Some(Text("€")), None, "'nä€'"),
        (StrOp::Concat, Text("a"), Some(Null), None, "invalid"),
        (StrOp::Concat, Invalid, Some(Text("a")), None, "invalid"),
        (StrOp::Lt, Text("a"), Some(Text("ab")), None, "true"),
        (StrOp::Lt, Text("z"), Some(Text("ä")), None, "true"),
        (StrOp::Le, Text("a"), Some(Text("a")), None, "true"),
        (StrOp::Gt, Text("a"), Some(Text("a")), None, "false"),
        (StrOp::Ge, Text("a"), Some(Text("b")), None, "false"),
        (StrOp::Ge, Text("a"), Some(Null), None, "invalid"),
    ] {
        let given = string_result(rt.alloc(), op, source, first, second)?;
        assert_eq!(rt;
            given.as_slice(),
            want.as_bytes(),
            "at {op:?} of {source:?}"
        );
    }
    Ok(())
}

#[test]
fn substrings_lie_within(rt: HostRuntime) -> Result<(), Fail> {
    use Sketch::{Int, Null, Text};
    for (op, source, first, second, want) in [
        (
            StrOp::Substring,
            Text("nä€𝄞"),
            Some(Int(2)),
            Some(Int(3)),
            "'ä€'",
        ),
        (
            StrOp::Substring,
            Text("abc"),
            Some(Int(1)),
            Some(Int(3)),
            "'abc'",
        ),
        (
            StrOp::Substring,
            Text("abc"),
            Some(Int(0)),
            Some(Int(3)),
            "invalid",
        ),
        (
            StrOp::Substring,
            Text("abc"),
            Some(Int(2)),
            Some(Int(1)),
            "invalid",
        ),
        (
            StrOp::Substring,
            Text("abc"),
            Some(Int(2)),
            Some(Int(4)),
            "invalid",
        ),
        (
            StrOp::Substring,
            Text("abc"),
            Some(Null),
            Some(Int(1)),
            "invalid",
        ),
        (StrOp::At, Text("nä€"), Some(Int(3)), None, "'€'"),
        (StrOp::At, Text("abc"), Some(Int(0)), None, "invalid"),
        (StrOp::At, Text("abc"), Some(Int(4)), None, "invalid"),
    ] {
        let given = string_result(rt.alloc(), op, source, first, second)?;
        assert_eq!(rt;
            given.as_slice(),
            want.as_bytes(),
            "at {op:?} of {source:?}"
        );
    }
    Ok(())
}

#[test]
fn places_count_from_1(rt: HostRuntime) -> Result<(), Fail> {
    use Sketch::{Null, Text};
    for (op, source, first, second, want) in [
        (StrOp::IndexOf, Text("nä€ä"), Some(Text("ä")), None, "2"),
        (StrOp::IndexOf, Text("nä€ä"), Some(Text("€ä")), None, "3"),
        (StrOp::IndexOf, Text("abc"), Some(Text("x")), None, "0"),
        (StrOp::IndexOf, Text("abc"), Some(Text("")), None, "1"),
        (StrOp::IndexOf, Text(""), Some(Text("")), None, "1"),
        (StrOp::IndexOf, Text(""), Some(Text("a")), None, "0"),
        (StrOp::IndexOf, Text("a"), Some(Null), None, "invalid"),
    ] {
        let given = string_result(rt.alloc(), op, source, first, second)?;
        assert_eq!(rt;
            given.as_slice(),
            want.as_bytes(),
            "at {op:?} of {source:?}"
        );
    }
    Ok(())
}

#[test]
fn integers_are_read(rt: HostRuntime) -> Result<(), Fail> {
    use Sketch::{Text};
    for (op, source, first, second, want) in [
        (StrOp::ToInteger, Text("-12"), None, None, "-12"),
        (StrOp::ToInteger, Text("007"), None, None, "7"),
        (StrOp::ToInteger, Text(""), None, None, "invalid"),
        (StrOp::ToInteger, Text("-"), None, None, "invalid"),
        (StrOp::ToInteger, Text("+1"), None, None, "invalid"),
        (StrOp::ToInteger, Text("1 "), None, None, "invalid"),
        (StrOp::ToInteger, Text("١"), None, None, "invalid"),
        (
            StrOp::ToInteger,
            Text("170141183460469231731687303715884105728"),
            None,
            None,
            "invalid",
        ),
        (
            StrOp::ToInteger,
            Text("-170141183460469231731687303715884105728"),
            None,
            None,
            "-170141183460469231731687303715884105728",
        ),
    ] {
        let given = string_result(rt.alloc(), op, source, first, second)?;
        assert_eq!(rt;
            given.as_slice(),
            want.as_bytes(),
            "at {op:?} of {source:?}"
        );
    }
    Ok(())
}

fn truth(place: u8) -> Value {
    match place {
        0 => Value::Bool(false),
        1 => Value::Bool(true),
        2 => Value::Null,
        _ => Value::Invalid,
    }
}

fn letter(value: &Value) -> u8 {
    match value {
        Value::Bool(false) => b'f',
        Value::Bool(true) => b't',
        Value::Null => b'n',
        _ => b'i',
    }
}

#[test]
fn truth_tables(rt: HostRuntime) -> Result<(), Fail> {
    let alloc = rt.alloc();
    for (left, and_row, or_row, xor_row, implies_row, negation) in [
        (0, "ffff", "ftni", "ftni", "tttt", b't'),
        (1, "ftni", "tttt", "tfni", "ftni", b'f'),
        (2, "fnni", "ntni", "nnni", "ntni", b'n'),
        (3, "fiii", "itii", "iiii", "itii", b'i'),
    ] {
        let a = truth(left);
        let mut ands = Vec::new(alloc);
        let mut ors = Vec::new(alloc);
        let mut xors = Vec::new(alloc);
        let mut implications = Vec::new(alloc);
        for right in 0..4 {
            let b = truth(right);
            ands.push(letter(&and(&a, &b)))?;
            ors.push(letter(&or(&a, &b)))?;
            xors.push(letter(&xor(&a, &b)))?;
            implications.push(letter(&implies(&a, &b)))?;
        }
        assert_eq!(rt; ands.as_slice(), and_row.as_bytes());
        assert_eq!(rt; ors.as_slice(), or_row.as_bytes());
        assert_eq!(rt; xors.as_slice(), xor_row.as_bytes());
        assert_eq!(rt; implications.as_slice(), implies_row.as_bytes());
        assert_eq!(rt; letter(&not(&a)), negation);
    }
    Ok(())
}

#[test]
fn plain_values_are_printed(rt: HostRuntime) -> Result<(), Fail> {
    use Sketch::{Bool, Enum, Int, Invalid, Null, Obj};
    for (sketch, text, bytes) in [
        (Null, "null", 1),
        (Invalid, "invalid", 1),
        (Bool(true), "true", 1),
        (Bool(false), "false", 1),
        (Int(-120), "-120", 1),
        (Int(LEAST), "-170141183460469231731687303715884105728", 1),
        (Enum(0, 0), "Grade::junior", 1),
        (Enum(0, 7), "invalid", 1),
        (Obj(1), "ada", 1),
        (Obj(12), "destroyed(12)", 1),
    ] {
        let value = value_of(rt.alloc(), sketch)?;
        assert_eq!(rt; shown(rt.alloc(), &value)?.as_slice(), text.as_bytes());
        assert_eq!(rt; size(&value), bytes);
        assert!(rt; value.try_copy(rt.alloc())? == value);
    }
    Ok(())
}

#[test]
fn strings_and_collections_are_printed(rt: HostRuntime) -> Result<(), Fail> {
    use Sketch::{Empty, One, Text, Two};
    for (sketch, text, bytes) in [
        (Text(""), "''", 1),
        (Text("it's\\a\tb\nä"), "'it\\'s\\\\a\\tb\\nä'", 12),
        (Empty(Kind::Set), "Set{}", 1),
        (One(Kind::OrderedSet, 2), "OrderedSet{2}", 2),
        (Two(Kind::Bag, 1, 1), "Bag{1,1}", 3),
        (Two(Kind::Sequence, 2, 1), "Sequence{2,1}", 3),
    ] {
        let value = value_of(rt.alloc(), sketch)?;
        assert_eq!(rt; shown(rt.alloc(), &value)?.as_slice(), text.as_bytes());
        assert_eq!(rt; size(&value), bytes);
        assert!(rt; value.try_copy(rt.alloc())? == value);
    }
    Ok(())
}

#[test]
fn nested_collections_are_printed(rt: HostRuntime) -> Result<(), Fail> {
    let mut items = Vec::new(rt.alloc());
    items.push(collection(rt.alloc(), Kind::Set, &[1, 2])?)?;
    items.push(text_value(rt.alloc(), &Value::Int(-5))?)?;
    items.push(text_value(rt.alloc(), &Value::Bool(true))?)?;
    let value = Value::Coll(Kind::Sequence, Items::from_vec(items));
    let text = shown(rt.alloc(), &value)?;
    assert_eq!(rt;
        text.as_slice(),
        b"Sequence{Set{1,2},'-5','true'}".as_slice()
    );
    assert!(rt; text_value(rt.alloc(), &Value::Null)? == Value::Invalid);
    Ok(())
}

#[test]
fn values_are_ordered(rt: HostRuntime) -> Result<(), Fail> {
    use Sketch::{Bool, Empty, Enum, Int, Null, Obj, Text};
    let mut values = Vec::new(rt.alloc());
    for sketch in [
        Null,
        Bool(false),
        Bool(true),
        Int(-2),
        Int(1),
        Text("ab"),
        Enum(0, 1),
        Enum(1, 0),
        Obj(1),
        Obj(2),
        Empty(Kind::Set),
    ] {
        values.push(value_of(rt.alloc(), sketch)?)?;
    }
    'left: for (i, a) in values.iter().enumerate() {
        'right: for (j, b) in values.iter().enumerate() {
            assert_eq!(rt; order(a, b), i.cmp(&j), "at {a:?} and {b:?}");
            assert!(rt; same(a, b) == Value::Bool(i == j), "at {a:?} and {b:?}");
        }
    }
    Ok(())
}

#[test]
fn strings_and_collections_are_ordered(rt: HostRuntime) -> Result<(), Fail> {
    use Sketch::{Empty, One, Text, Two};
    let mut values = Vec::new(rt.alloc());
    for sketch in [
        Text(""),
        Text("a"),
        Text("ab"),
        Text("ä"),
        Empty(Kind::Set),
        One(Kind::Set, 1),
        Two(Kind::Set, 1, 2),
        One(Kind::Set, 2),
        One(Kind::OrderedSet, 1),
        One(Kind::Bag, 0),
        Empty(Kind::Sequence),
    ] {
        values.push(value_of(rt.alloc(), sketch)?)?;
    }
    'left: for (i, a) in values.iter().enumerate() {
        'right: for (j, b) in values.iter().enumerate() {
            assert_eq!(rt; order(a, b), i.cmp(&j), "at {a:?} and {b:?}");
            assert!(rt; same(a, b) == Value::Bool(i == j), "at {a:?} and {b:?}");
        }
    }
    Ok(())
}

#[test]
fn invalid_equals_nothing(rt: HostRuntime) {
    assert!(rt; same(&Value::Invalid, &Value::Invalid) == Value::Invalid);
    assert!(rt; same(&Value::Null, &Value::Invalid) == Value::Invalid);
    assert!(rt; Value::Invalid.is_invalid());
    assert!(rt; !Value::Null.is_invalid());
}
