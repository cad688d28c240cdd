use eval_scene::{ALONE, Row, rows_hold};
use std::test::Fail;

/// `forAll` joins the bodies by `and`, and stops at false.
static FOR_ALL: &[Row] = &[
    ("Sequence{1,2}->forAll(x | x > 0)", "true", 12),
    ("Sequence{1,2}->forAll(x | x > 1)", "false", 9),
    ("Set{}->forAll(x | false)", "true", 2),
    ("Sequence{}->forAll(x | invalid)", "true", 2),
    ("null->forAll(x | false)", "true", 3),
    ("invalid->forAll(x | true)", "invalid", 3),
    ("5->forAll(x | x = 5)", "true", 7),
    ("nobody->forAll(p | false)", "true", 3),
    ("Sequence{1,0}->forAll(x | 1 div x > 1)", "false", 11),
    ("Sequence{0,1}->forAll(x | 1 div x > 1)", "false", 16),
    ("Sequence{0,1}->forAll(x | 1 div x > 0)", "invalid", 16),
    (
        "Sequence{1,2}->forAll(x | if x = 1 then null else x > 1 endif)",
        "null",
        18,
    ),
    (
        "Sequence{1,0}->forAll(x | if x = 1 then null else x > 1 endif)",
        "false",
        18,
    ),
    (
        "Sequence{1,0}->forAll(x | if x = 1 then null else 1 div x = 1 endif)",
        "invalid",
        20,
    ),
    (
        "Sequence{0,1}->forAll(x | if x = 1 then null else 1 div x = 1 endif)",
        "invalid",
        20,
    ),
    (
        "Sequence{bob,ada}->forAll(p | p.age > 18)",
        "false reads Slot(2,1)",
        11,
    ),
];

/// `exists` joins the bodies by `or`, and stops at true.
static EXISTS: &[Row] = &[
    ("Sequence{1,2}->exists(x | x > 1)", "true", 12),
    ("Sequence{1,2}->exists(x | x > 2)", "false", 12),
    ("Set{}->exists(x | true)", "false", 2),
    ("Sequence{}->exists(x | invalid)", "false", 2),
    ("null->exists(x | true)", "false", 3),
    ("invalid->exists(x | true)", "invalid", 3),
    ("5->exists(x | x = 5)", "true", 7),
    ("nobody->exists(p | true)", "false", 3),
    ("Sequence{1,0}->exists(x | 1 div x = 1)", "true", 11),
    ("Sequence{0,1}->exists(x | 1 div x = 1)", "true", 16),
    ("Sequence{0,1}->exists(x | 1 div x > 1)", "invalid", 16),
    (
        "Sequence{1,2}->exists(x | if x = 1 then null else x > 2 endif)",
        "null",
        18,
    ),
    (
        "Sequence{1,2}->exists(x | if x = 1 then null else x = 2 endif)",
        "true",
        18,
    ),
    (
        "Sequence{1,0}->exists(x | if x = 1 then null else 1 div x = 1 endif)",
        "invalid",
        20,
    ),
    (
        "Sequence{0,1}->exists(x | if x = 1 then null else 1 div x = 1 endif)",
        "invalid",
        20,
    ),
    (
        "Sequence{ada,bob}->exists(p | p.age > 18)",
        "true reads Slot(1,1)",
        11,
    ),
];

/// `forAll` and `exists` with two variables go over all ordered pairs.
static PAIRS: &[Row] = &[
    ("Sequence{1,2}->forAll(a, b | a <= b)", "false", 15),
    ("Sequence{1,2}->forAll(a, b | a + b > 1)", "true", 26),
    ("Sequence{1}->forAll(a, b | a = b)", "true", 7),
    ("Set{}->forAll(a, b | false)", "true", 2),
    ("null->forAll(a, b | false)", "true", 3),
    ("invalid->forAll(a, b | false)", "invalid", 3),
    ("5->forAll(a, b | a = b)", "true", 7),
    ("Sequence{1,2}->exists(a, b | a > b)", "true", 15),
    ("Sequence{1,2}->exists(a, b | a + b > 4)", "false", 26),
    ("Sequence{1}->exists(a, b | a <> b)", "false", 7),
    ("Set{}->exists(a, b | true)", "false", 2),
    (
        "Sequence{1,2}->exists(a : Integer, b : Integer | a + b = 3)",
        "true",
        16,
    ),
    (
        "Sequence{1,2}->forAll(a, b | a <> 2 or 1 div (b - 1) = 1)",
        "invalid",
        36,
    ),
    (
        "Sequence{1,2}->forAll(a, b | a <> 2 or 1 div (b - 1) = 0)",
        "false",
        36,
    ),
    (
        "Sequence{1,2}->exists(a, b | a = 2 and 1 div (b - 1) = 1)",
        "true",
        36,
    ),
    (
        "Sequence{1,2}->forAll(a, b | if a = b then null else true endif)",
        "null",
        26,
    ),
    (
        "Sequence{ada,bob}->forAll(p, q | p.age <= q.age)",
        "false reads Slot(1,1) Slot(2,1)",
        20,
    ),
];

/// `isUnique` is true where all bodies differ.
static IS_UNIQUE: &[Row] = &[
    ("Sequence{1,2}->isUnique(x | x)", "true", 8),
    ("Sequence{1,1}->isUnique(x | x)", "false", 8),
    ("Bag{1,1}->isUnique(x | x)", "false", 8),
    ("Set{1,2,3}->isUnique(x | x mod 2)", "false", 17),
    ("Set{1,2}->isUnique(x | x mod 2)", "true", 12),
    ("Set{}->isUnique(x | 1)", "true", 2),
    ("Sequence{}->isUnique(x | invalid)", "true", 2),
    ("null->isUnique(x | 1)", "true", 3),
    ("invalid->isUnique(x | 1)", "invalid", 3),
    ("5->isUnique(x | null)", "true", 5),
    ("Sequence{1,2}->isUnique(x | null)", "false", 8),
    (
        "Sequence{1,2}->isUnique(x | if x = 1 then null else x endif)",
        "true",
        16,
    ),
    ("Sequence{1,0}->isUnique(x | 1 div x)", "invalid", 12),
    ("Sequence{1,1,0}->isUnique(x | 1 div x)", "invalid", 17),
    ("Sequence{1,2}->isUnique(x | Set{x, 3 - x})", "false", 20),
    ("Sequence{Set{1},Bag{1}}->isUnique(x | x)", "true", 16),
];

#[test]
fn for_all_joins_by_and_and_stops_at_false(rt: HostRuntime) -> Result<(), Fail> {
    rows_hold(rt.alloc(), ALONE, FOR_ALL)?;
    Ok(())
}

#[test]
fn exists_joins_by_or_and_stops_at_true(rt: HostRuntime) -> Result<(), Fail> {
    rows_hold(rt.alloc(), ALONE, EXISTS)?;
    Ok(())
}

#[test]
fn two_variables_take_all_ordered_pairs(rt: HostRuntime) -> Result<(), Fail> {
    rows_hold(rt.alloc(), ALONE, PAIRS)?;
    Ok(())
}

#[test]
fn is_unique_compares_all_bodies(rt: HostRuntime) -> Result<(), Fail> {
    rows_hold(rt.alloc(), ALONE, IS_UNIQUE)?;
    Ok(())
}
