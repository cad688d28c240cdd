use eval_scene::{ALONE, Row, rows_hold};
use std::test::Fail;

/// Literals.
static LITERALS: &[Row] = &[
    ("7", "7", 1),
    (
        "170141183460469231731687303715884105727",
        "170141183460469231731687303715884105727",
        1,
    ),
    ("'a\\'b\\\\\\n'", "'a\\'b\\\\\\n'", 6),
    ("''", "''", 1),
    ("true", "true", 1),
    ("false", "false", 1),
    ("null", "null", 1),
    ("Undefined", "null", 1),
    ("invalid", "invalid", 1),
    ("Color::green", "Color::green", 1),
    ("#red", "Color::red", 1),
];

/// Entries of the environment.
static NAMES: &[Row] = &[
    ("ada", "ada", 1),
    ("gone", "destroyed(5)", 1),
    ("nobody", "null", 1),
    ("let x = 3 in x + 1", "4", 5),
    ("let x = 3, y = x + 1 in x * y", "12", 9),
    ("let x = 3 in let y = 4, x = y * 2 in x - y", "4", 11),
    ("let x = 1 div 0 in x", "invalid", 5),
    ("let x = 1 div 0 in 5", "5", 5),
    ("let x = null in x", "null", 3),
    ("let x = ada.age in x + x", "80 reads Slot(1,1)", 7),
];

/// Names that are bound inside each other.
static BINDINGS: &[Row] = &[
    (
        "Sequence{1,2}->collect(x | Sequence{3,4}->collect(y | x * 10 + y))",
        "Sequence{13,14,23,24}",
        46,
    ),
    (
        "Sequence{1,2}->forAll(a, b | let c = a + b in Sequence{c}->exists(d | d = a + b))",
        "true",
        58,
    ),
    (
        "Sequence{1,2}->iterate(x; s : Integer = 0 | s + Sequence{3}->iterate(y; r : Integer = s | r + x * y))",
        "12",
        31,
    ),
    (
        "let x = 1 in Sequence{2}->collect(x | x + 1)",
        "Sequence{3}",
        11,
    ),
    (
        "let a = 2 in ada.sum(a, let a = 3 in a)",
        "46 reads Kind(1) Slot(1,1)",
        16,
    ),
    (
        "Sequence{ada,bob}->collect(p | p.friend->collect(age))",
        "Sequence{17} reads Slot(1,3) Slot(2,1) Slot(2,3)",
        22,
    ),
    (
        "let x = 5, y = Sequence{1}->iterate(z; s : Integer = x | s + z) in y * x",
        "30",
        14,
    ),
];

/// `if`: its condition, and the branch that it chooses.
static CHOICES: &[Row] = &[
    ("if true then 1 else 2 endif", "1", 3),
    ("if false then 1 else 2 endif", "2", 3),
    ("if null then 1 else 2 endif", "invalid", 2),
    ("if 1 div 0 = 1 then 1 else 2 endif", "invalid", 6),
    (
        "if 1 < 2 then ada.age else bob.age endif",
        "40 reads Slot(1,1)",
        7,
    ),
    (
        "if 2 < 1 then ada.age else bob.age endif",
        "17 reads Slot(2,1)",
        7,
    ),
    ("if null then ada.age else bob.age endif", "invalid", 2),
    (
        "if ada.age > 18 then null else 1 endif",
        "null reads Slot(1,1)",
        7,
    ),
    ("if true then Set{1,2} else Set{} endif", "Set{1,2}", 9),
];

/// `not` and unary `-`.
static UNARY: &[Row] = &[
    ("not true", "false", 2),
    ("not false", "true", 2),
    ("not null", "null", 2),
    ("not invalid", "invalid", 2),
    ("-5", "-5", 2),
    ("-(-5)", "5", 3),
    ("-null", "invalid", 2),
    ("-(1 div 0)", "invalid", 4),
    (
        "-170141183460469231731687303715884105727 - 1",
        "-170141183460469231731687303715884105728",
        4,
    ),
    (
        "-(-170141183460469231731687303715884105727 - 1)",
        "invalid",
        5,
    ),
    ("not (ada.age > 18)", "false reads Slot(1,1)", 6),
];

/// What the left side of a connective decides alone, and what it does not.
static DECIDED: &[Row] = &[
    ("false and ada.age > 18", "false", 2),
    ("true and ada.age > 18", "true reads Slot(1,1)", 7),
    ("null and ada.age > 18", "null reads Slot(1,1)", 7),
    ("invalid and ada.age < 18", "false reads Slot(1,1)", 7),
    ("true or ada.age > 18", "true", 2),
    ("false or ada.age > 18", "true reads Slot(1,1)", 7),
    ("null or ada.age > 18", "true reads Slot(1,1)", 7),
    ("invalid or ada.age < 18", "invalid reads Slot(1,1)", 7),
    ("false implies ada.age > 18", "true", 2),
    ("true implies ada.age > 18", "true reads Slot(1,1)", 7),
    ("null implies ada.age > 18", "true reads Slot(1,1)", 7),
    ("invalid implies ada.age < 18", "invalid reads Slot(1,1)", 7),
    ("true xor ada.age > 18", "false reads Slot(1,1)", 7),
    ("invalid xor ada.age > 18", "invalid reads Slot(1,1)", 7),
    ("true and 1 div 0 = 1", "invalid", 7),
    ("false and 1 div 0 = 1", "false", 2),
    ("true or 1 div 0 = 1", "true", 2),
];

#[test]
fn literals_are_their_values(rt: HostRuntime) -> Result<(), Fail> {
    rows_hold(rt.alloc(), ALONE, LITERALS)?;
    Ok(())
}

#[test]
fn names_stand_for_entries_of_the_environment(rt: HostRuntime) -> Result<(), Fail> {
    rows_hold(rt.alloc(), ALONE, NAMES)?;
    Ok(())
}

#[test]
fn names_inside_each_other(rt: HostRuntime) -> Result<(), Fail> {
    rows_hold(rt.alloc(), ALONE, BINDINGS)?;
    Ok(())
}

#[test]
fn conditions_choose_a_branch(rt: HostRuntime) -> Result<(), Fail> {
    rows_hold(rt.alloc(), ALONE, CHOICES)?;
    Ok(())
}

#[test]
fn operators_of_one_operand(rt: HostRuntime) -> Result<(), Fail> {
    rows_hold(rt.alloc(), ALONE, UNARY)?;
    Ok(())
}

#[test]
fn the_left_side_may_decide_alone(rt: HostRuntime) -> Result<(), Fail> {
    rows_hold(rt.alloc(), ALONE, DECIDED)?;
    Ok(())
}
