use super::{program, refusal};
use std::alloc::Global;
use std::test::Fail;
use use_text::Family;

/// A piece of a model, what may stand behind it, what may not, and the family, the number, the line and the
/// column of the rule that this breaks.
type Piece = (
    &'static str,
    &'static str,
    &'static str,
    (Family, u8, u32, u32),
);

/// An attribute, a query, its precondition, an invariant of the class, and then contexts.
const BY_CLASS: &[Piece] = &[
    (
        "model M\nclass A\nattributes x : Integer\n  y : Integer = ",
        "x",
        "true",
        (Family::T, 5, 4, 17),
    ),
    (
        "\noperations\n  f(p : Integer) : Integer = ",
        "p",
        "nobody",
        (Family::N, 1, 6, 30),
    ),
    ("\n  pre: ", "p > 0", "p", (Family::T, 4, 7, 8)),
    ("\nconstraints\n  inv: ", "x > 0", "x", (Family::T, 4, 9, 8)),
    (
        "\nend\nconstraints\ncontext A inv: ",
        "x = y",
        "1 + true = y",
        (Family::T, 1, 12, 18),
    ),
    (
        "\ncontext A::f(q : Integer) : Integer post: ",
        "q > 0",
        "p > 0",
        (Family::N, 1, 13, 43),
    ),
];

/// A context before the classes, and a class before its parent.
const BY_CONTEXT: &[Piece] = &[
    (
        "model M\nconstraints context v : B inv: ",
        "v.n = 1",
        "v = 1 and w",
        (Family::N, 1, 2, 42),
    ),
    (
        "\nclass B < A operations g() begin ",
        "self.n := 2",
        "x := 'a'; self.n := x",
        (Family::T, 5, 3, 54),
    ),
    ("; ", "self.h()", "y := self.h()", (Family::T, 12, 3, 47)),
    (
        " end\n  post: ",
        "n = 2",
        "result = 2",
        (Family::N, 1, 4, 9),
    ),
    (
        "\nend\nclass A attributes n : Integer operations h() begin ",
        "self.n := 1",
        "declare z : Nope",
        (Family::N, 1, 6, 65),
    ),
    (
        " end end\nenum E {a}\nconstraints context A inv: ",
        "#a = E::a",
        "#b = E::a",
        (Family::N, 3, 8, 29),
    ),
];

/// The model of these pieces, in which the first ones so many are sound.
fn with_faults(alloc: Global, pieces: &[Piece], sound: usize) -> Result<String, Fail> {
    let mut text = String::new(alloc);
    'pieces: for (i, piece) in pieces.iter().enumerate() {
        text.push_str(piece.0)?;
        text.push_str(if i < sound { piece.1 } else { piece.2 })?;
    }
    Ok(text)
}

/// The first piece whose fault is not told where all pieces before it are sound.
fn first_other(alloc: Global, pieces: &[Piece]) -> Result<Option<usize>, Fail> {
    'pieces: for (i, piece) in pieces.iter().enumerate() {
        let text = with_faults(alloc, pieces, i)?;
        if refusal(alloc, text.as_str())? != Some(piece.3) {
            return Ok(Some(i));
        }
    }
    Ok(None)
}

fn is_accepted(alloc: Global, pieces: &[Piece]) -> Result<bool, Fail> {
    let text = with_faults(alloc, pieces, pieces.len())?;
    Ok(program(alloc, text.as_str())?.is_some())
}

#[test]
fn faults_are_told_in_the_order_of_the_text(rt: HostRuntime) -> Result<(), Fail> {
    assert_eq!(rt; first_other(rt.alloc(), BY_CLASS)?, None);
    assert_eq!(rt; first_other(rt.alloc(), BY_CONTEXT)?, None);
    Ok(())
}

#[test]
fn models_without_faults_are_accepted(rt: HostRuntime) -> Result<(), Fail> {
    assert!(rt; is_accepted(rt.alloc(), BY_CLASS)?);
    assert!(rt; is_accepted(rt.alloc(), BY_CONTEXT)?);
    Ok(())
}
