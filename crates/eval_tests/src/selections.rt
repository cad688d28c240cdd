use eval_scene::{ALONE, Row, rows_hold};
use std::test::Fail;

/// `select` keeps the elements for which the body is true.
static SELECT: &[Row] = &[
    ("Sequence{3,1,2}->select(x | x > 1)", "Sequence{3,2}", 19),
    ("Set{1..4}->select(x | x mod 2 = 0)", "Set{2,4}", 30),
    ("Bag{2,1,2}->select(x | x = 2)", "Bag{2,2}", 19),
    (
        "OrderedSet{3,1,2}->select(x | x > 1)",
        "OrderedSet{3,2}",
        19,
    ),
    ("Set{1,2}->select(x : Integer | x > 1)", "Set{2}", 13),
    ("Set{1,2}->select(true)", "Set{1,2}", 10),
    ("Set{1,2}->select(false)", "Set{}", 8),
    ("Sequence{}->select(x | true)", "Sequence{}", 2),
    ("Set{}->select(x | invalid)", "Set{}", 2),
    ("Set{}->select(x | null)", "Set{}", 2),
    ("null->select(x | true)", "Set{}", 3),
    ("nobody->select(p | true)", "Set{}", 3),
    ("invalid->select(x | true)", "invalid", 3),
    ("5->select(x | x > 4)", "Set{5}", 8),
    ("bob.marks->select(x | x > 1)", "Set{} reads Slot(2,4)", 4),
    (
        "Sequence{1,2}->select(x | if x = 1 then null else x > 1 endif)",
        "invalid",
        18,
    ),
    ("Sequence{1,0}->select(x | 1 div x = 1)", "invalid", 16),
    ("Sequence{0,1}->select(x | 1 div x = 1)", "invalid", 16),
    ("Set{1}->select(null)", "invalid", 5),
    (
        "Sequence{0,1}->select(x | 1 div x = ada.age)",
        "invalid reads Slot(1,1)",
        20,
    ),
    ("Set{null,1}->select(x | x = null)", "Set{null}", 13),
    (
        "t.staff->select(age > 18)",
        "invalid reads Slot(1,1) Slot(2,1) Slot(3,1) Nav(0,First,4)",
        22,
    ),
    (
        "t.staff->select(age <> null)",
        "Set{ada,bob} reads Slot(1,1) Slot(2,1) Slot(3,1) Nav(0,First,4)",
        24,
    ),
];

/// `reject` keeps the elements for which the body is false.
static REJECT: &[Row] = &[
    ("Sequence{3,1,2}->reject(x | x > 1)", "Sequence{1}", 18),
    ("Set{1..4}->reject(x | x mod 2 = 0)", "Set{1,3}", 30),
    ("Bag{2,1,2}->reject(x | x = 1)", "Bag{2,2}", 19),
    (
        "OrderedSet{3,1,2}->reject(x | x = 1)",
        "OrderedSet{3,2}",
        19,
    ),
    ("Sequence{}->reject(x | false)", "Sequence{}", 2),
    ("Set{}->reject(x | invalid)", "Set{}", 2),
    ("null->reject(x | false)", "Set{}", 3),
    ("invalid->reject(x | false)", "invalid", 3),
    ("5->reject(x | x > 4)", "Set{}", 7),
    (
        "Sequence{1,2}->reject(x | if x = 1 then null else x > 1 endif)",
        "invalid",
        18,
    ),
    ("Sequence{1,0}->reject(x | 1 div x = 1)", "invalid", 16),
    ("Set{1}->reject(null)", "invalid", 5),
];

/// `any` gives the first element for which the body is true, or null.
static ANY: &[Row] = &[
    ("Sequence{3,1,2}->any(x | x < 3)", "1", 14),
    ("Set{3,1,2}->any(x | x > 1)", "2", 14),
    ("Bag{3,1}->any(x | true)", "1", 7),
    ("OrderedSet{3,1,2}->any(x | x < 3)", "1", 14),
    ("Sequence{1,2}->any(x | x > 5)", "null", 12),
    ("Sequence{}->any(x | true)", "null", 2),
    ("Set{}->any(x | invalid)", "null", 2),
    ("null->any(x | true)", "null", 3),
    ("invalid->any(x | true)", "invalid", 3),
    ("5->any(x | true)", "5", 5),
    ("Sequence{1,0}->any(x | 1 div x = 1)", "1", 11),
    ("Sequence{0,1}->any(x | 1 div x = 1)", "invalid", 16),
    (
        "Sequence{2,1}->any(x | if x = 2 then null else true endif)",
        "invalid",
        16,
    ),
    (
        "Sequence{1,2}->any(x | if x = 2 then null else false endif)",
        "invalid",
        16,
    ),
    (
        "Sequence{2,1}->any(x | if x = 1 then null else true endif)",
        "2",
        11,
    ),
    ("Set{null}->any(x | x = null)", "null", 7),
    (
        "Sequence{ada,bob}->any(p | p.age > 18)",
        "ada reads Slot(1,1)",
        11,
    ),
];

/// `one` is true where the body is true for exactly one element.
static ONE: &[Row] = &[
    ("Sequence{1,2}->one(x | x > 1)", "true", 12),
    ("Sequence{1,2}->one(x | x > 0)", "false", 12),
    ("Sequence{1,2}->one(x | x > 2)", "false", 12),
    ("Bag{2,2}->one(x | x = 2)", "false", 12),
    ("Sequence{}->one(x | true)", "false", 2),
    ("Set{}->one(x | invalid)", "false", 2),
    ("null->one(x | true)", "false", 3),
    ("invalid->one(x | true)", "invalid", 3),
    ("5->one(x | true)", "true", 5),
    ("Sequence{1,0}->one(x | 1 div x = 1)", "invalid", 16),
    ("Sequence{3,3,0}->one(x | 3 div x = 1)", "invalid", 23),
    (
        "Sequence{2,1}->one(x | if x = 1 then null else true endif)",
        "invalid",
        16,
    ),
    ("Set{1}->one(null)", "invalid", 5),
];

#[test]
fn select_keeps_what_the_body_is_true_of(rt: HostRuntime) -> Result<(), Fail> {
    rows_hold(rt.alloc(), ALONE, SELECT)?;
    Ok(())
}

#[test]
fn reject_keeps_what_the_body_is_false_of(rt: HostRuntime) -> Result<(), Fail> {
    rows_hold(rt.alloc(), ALONE, REJECT)?;
    Ok(())
}

#[test]
fn any_gives_the_first_one_or_null(rt: HostRuntime) -> Result<(), Fail> {
    rows_hold(rt.alloc(), ALONE, ANY)?;
    Ok(())
}

#[test]
fn one_visits_all_elements(rt: HostRuntime) -> Result<(), Fail> {
    rows_hold(rt.alloc(), ALONE, ONE)?;
    Ok(())
}
