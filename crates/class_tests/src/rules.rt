ghost use Rattle.std.specs.Prelude.{◌≡◌};
ghost use Rattle.use_syntax.specs.Language.{language};

use crate::texts::{decls_of, language};
use class_builder::build;
use class_rules::{RuleFault, judge};
use grammar_core::Grammar;
use std::alloc::Global;
use std::test::Fail;

/// The number of the rule that a model breaks, and the place; zeros where it breaks none.
type Told = (u8, u32, u32);

fn told(fault: RuleFault) -> Told {
    match fault {
        RuleFault::Refused(refusal) => (refusal.code.number, refusal.place.line, refusal.place.col),
        _ => (255, 0, 0),
    }
}

/// What the rules tell of a model.
fn judged(alloc: Global, g: &Grammar, text: &str) -> Result<Option<Told>, Fail>
    requires { g.now ≡ language }
{
    match decls_of(alloc, g, text)? {
        None => Ok(None),
        Some(decls) => match judge(alloc, &decls) {
            Ok(()) => Ok(Some((0, 0, 0))),
            Err(fault) => Ok(Some(told(fault))),
        },
    }
}

/// What the builder tells of a model.
fn built(alloc: Global, g: &Grammar, text: &str) -> Result<Option<Told>, Fail>
    requires { g.now ≡ language }
{
    match decls_of(alloc, g, text)? {
        None => Ok(None),
        Some(decls) => match build(alloc, decls) {
            Ok(_) => Ok(Some((0, 0, 0))),
            Err(fault) => Ok(Some(told(fault))),
        },
    }
}

/// A model, behind its first line, and what is told of it.
fn row(at: u32) -> (&'static str, Told) {
    match at {
        0 => ("class A end", (0, 0, 0)),
        // M1: one space for enumerations, classes and the plain types, one for each one's literals
        1 => ("class A end\nclass A end", (1, 3, 7)),
        2 => ("enum Color {red, red}", (1, 2, 18)),
        3 => ("enum Color {Color, A}\nclass A end", (0, 0, 0)),
        4 => ("enum Color {red}\nclass Color end", (1, 3, 7)),
        5 => ("class String end", (1, 2, 7)),
        // M2: an enumeration is a type, and no class
        6 => (
            "class A end\nclass B < A\nattributes x : Color\nend\nenum Color {red}",
            (0, 0, 0),
        ),
        7 => (
            "class A end\nclass B < A\nattributes x : Colour\nend\nenum Color {red}",
            (2, 4, 16),
        ),
        8 => ("enum Color {red}\nclass B < Color end", (2, 3, 11)),
        // M3, M4
        9 => ("class A end\nclass C < A, A end", (3, 3, 14)),
        10 => ("class A < B end\n\nclass B < A end", (4, 4, 7)),
        // M6 to M12
        11 => (
            "class A attributes b : Integer end\nclass B end\nassociation R between A[*] B[*] end",
            (6, 2, 7),
        ),
        12 => (
            "class A operations\n  f()\n  f(x : Integer)\nend",
            (7, 4, 3),
        ),
        13 => (
            "class A operations f() : Integer end\nclass B < A operations f() : String end",
            (8, 3, 24),
        ),
        14 => (
            "class A operations f() end\nclass B operations f() end\nclass C < A, B end",
            (9, 4, 7),
        ),
        15 => (
            "class A operations f() : Integer = 1 end\nclass B < A operations f() : Integer begin result := 1 end end",
            (10, 3, 24),
        ),
        16 => (
            "class A end\nassociation R between A[0..1] role a A[*] role b end",
            (0, 0, 0),
        ),
        17 => (
            "class A end\nassociation R between A[0] role a A[*] role b end",
            (11, 3, 25),
        ),
        18 => (
            "class A end\nassociation R between A[*] role a A[2..1] role b end",
            (11, 3, 37),
        ),
        19 => (
            "class A end\nassociation R between A[4294967295] role a A[4294967296] role b end",
            (11, 3, 46),
        ),
        20 => (
            "class A operations f() end\nconstraints\ncontext A::g() pre: true",
            (12, 4, 12),
        ),
        // the least rule is told first
        21 => ("class A < Z end\nclass String end", (1, 3, 7)),
        22 => ("class A < Z, Z end", (2, 2, 11)),
        23 => ("class A < A, A end", (3, 2, 14)),
        24 => (
            "class A < A end\nclass B attributes x : Integer end\nclass C < B attributes x : Integer end",
            (4, 2, 7),
        ),
        _ => inherited(at),
    }
}

/// M5: an attribute of one ancestor is met once, and what unrelated classes share is met below both;
/// it is told at the first class in the text that has the fault.
fn inherited(at: u32) -> (&'static str, Told) {
    match at {
        25 => (
            "class A attributes y : Integer end\nclass B attributes y : Integer end\nclass D < A, B end",
            (5, 4, 7),
        ),
        26 => (
            "class D < B, C end\nclass B < A end\nclass C < A end\nclass A attributes y : Integer end",
            (0, 0, 0),
        ),
        27 => (
            "class D < C end\nclass B attributes x : Integer end\nclass C < B attributes x : Integer end",
            (5, 2, 7),
        ),
        28 => (
            "class D < C end\nclass B attributes x : Integer end\nclass C < B attributes y : Integer end",
            (0, 0, 0),
        ),
        29 => (
            "class A attributes x : Integer end\nclass B < A attributes y : Integer end\nclass C < B end\n\
            class E attributes x : Integer end\nclass F attributes y : Integer end\nclass G < E, F end",
            (0, 0, 0),
        ),
        _ => (
            "class A attributes x : Integer end\nclass B < A attributes y : Integer end\nclass C < B end\n\
            class D < C, F end\nclass E attributes x : Integer end\nclass F attributes y : Integer end",
            (5, 5, 7),
        ),
    }
}

/// The first row of which the rules or the builder tell something else.
fn first_other(alloc: Global, g: &Grammar) -> Result<Option<u32>, Fail>
    requires { g.now ≡ language }
{
    'rows: for at in 0..31u32 {
        let (rest, wanted) = row(at);
        let text = format!(in alloc; "model M\n{rest}\n")?;
        let by_rules = judged(alloc, g, text.as_str())?;
        let by_builder = built(alloc, g, text.as_str())?;
        if by_rules != Some(wanted) || by_builder != Some(wanted) {
            return Ok(Some(at));
        }
    }
    Ok(None)
}

#[test]
fn a_model_is_refused_by_its_least_rule_at_its_first_place(rt: HostRuntime) -> Result<(), Fail> {
    let found = language(rt.alloc())?;
    if let Some(g) = &found {
        assert_eq!(rt; first_other(rt.alloc(), g)?, None);
    }
    assert!(rt; found.is_some());
    Ok(())
}
