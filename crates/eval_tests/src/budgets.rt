use eval_scene::{ALONE, PADDED, PADDED_AT_EXIT, Row, rows_hold};
use std::test::Fail;

/// A range of fewer numbers than there are units.
static FEW: &[Row] = &[("Sequence{1..400000}->size()", "400000", 0)];

/// All units are spent.
static LARGEST: &[Row] = &[("Sequence{1..999996}->size()", "999996", 0)];

/// One unit is wanting.
static SMALLEST: &[Row] = &[("Sequence{1..999997}->size()", "exhausted", 0)];

/// Ranges that are not built.
static UNBUILT: &[Row] = &[
    ("Sequence{1..1000000}->size()", "exhausted", 0),
    ("Sequence{1..999998}->size()", "exhausted", 0),
    (
        "Sequence{1..170141183460469231731687303715884105727}",
        "exhausted",
        0,
    ),
    (
        "Set{-170141183460469231731687303715884105727..170141183460469231731687303715884105727, ada.age}",
        "exhausted",
        0,
    ),
    (
        "Bag{ada.age..170141183460469231731687303715884105727}",
        "exhausted reads Slot(1,1)",
        0,
    ),
    (
        "Sequence{170141183460469231731687303715884105727..1}",
        "Sequence{}",
        3,
    ),
];

/// The deepest level is 512: a query is one level deeper than its call, and so is a derived attribute.
static DEPTHS: &[Row] = &[
    ("ada.down(254)", "0 reads Kind(1)", 0),
    ("ada.down(254) + 0", "exhausted reads Kind(1)", 0),
    ("ada.down(255)", "exhausted reads Kind(1)", 0),
    ("ada.reach(253)", "41 reads Kind(1) Slot(1,1)", 0),
    ("ada.reach(253) + 0", "exhausted reads Kind(1)", 0),
    ("not (ada.down(254) = 0)", "exhausted reads Kind(1)", 0),
];

/// A range is built where 1, the sizes of what stands before it and its numbers are left.
static RANGES: &[Row] = &[
    (
        "Set{'xxxxxxxxxxxxxxxxxxxx','xxxxxxxxxxxxxxxxxxxx',1..2}",
        "false",
        89,
    ),
    (
        "Set{'xxxxxxxxxxxxxxxxxxxx','xxxxxxxxxxxxxxxxxxxx',1..2}",
        "exhausted",
        88,
    ),
    (
        "Set{'xxxxxxxxxxxxxxxxxxxx','xxxxxxxxxxxxxxxxxxxx',1..null}",
        "true",
        87,
    ),
    (
        "Set{'xxxxxxxxxxxxxxxxxxxx','xxxxxxxxxxxxxxxxxxxx',1..null}",
        "exhausted",
        86,
    ),
    ("Set{1..10,1..10}", "false", 25),
    ("Set{1..10,1..10}", "exhausted", 24),
    ("Set{1..10,null..1,1..10}", "true", 27),
    ("Set{1..10,null..1,1..10}", "exhausted", 26),
    ("Sequence{1..10}", "false", 16),
    ("Sequence{1..10}", "exhausted", 14),
    ("Sequence{1..10, ada.age}", "exhausted", 12),
    ("Sequence{1..10, ada.age}", "exhausted reads Slot(1,1)", 13),
    ("Sequence{1..10, ada.age}", "false reads Slot(1,1)", 20),
];

/// A look that is not paid is not made, and its cell is not read.
static LOOKS: &[Row] = &[
    ("ada.age", "exhausted", 1),
    ("ada.age", "exhausted reads Slot(1,1)", 2),
    ("ada.age", "false reads Slot(1,1)", 6),
    ("gone.age", "exhausted", 1),
    ("gone.age", "exhausted reads Slot(5,1)", 2),
    ("gone.age", "true reads Slot(5,1)", 6),
    ("ada.team", "exhausted", 1),
    ("ada.team", "exhausted reads Nav(0,Second,1)", 2),
    ("ada.team", "false reads Nav(0,Second,1)", 6),
    ("t.staff", "exhausted", 1),
    ("t.staff", "exhausted reads Nav(0,First,4)", 2),
    ("t.staff", "false reads Nav(0,First,4)", 9),
    ("Person.allInstances()", "exhausted", 0),
    ("Person.allInstances()", "exhausted reads Extent(1)", 1),
    ("Person.allInstances()", "false reads Extent(1)", 9),
    ("ada.oclIsKindOf(Person)", "exhausted", 1),
    ("ada.oclIsKindOf(Person)", "exhausted reads Kind(1)", 2),
    ("ada.oclIsKindOf(Person)", "false reads Kind(1)", 6),
    ("cy.oclAsType(Chief)", "exhausted", 1),
    ("cy.oclAsType(Chief)", "exhausted reads Kind(3)", 2),
    ("cy.oclAsType(Chief)", "false reads Kind(3)", 6),
    ("ada.next", "exhausted", 1),
    ("ada.next", "exhausted reads Kind(1)", 2),
    ("ada.next", "exhausted reads Kind(1)", 3),
    ("ada.next", "exhausted reads Kind(1) Slot(1,1)", 4),
    ("ada.next", "false reads Kind(1) Slot(1,1)", 11),
    ("cy.rank()", "exhausted", 1),
    ("cy.rank()", "exhausted reads Kind(3)", 2),
    ("cy.rank()", "false reads Kind(3)", 7),
    ("ada.sum(2, 3)", "exhausted", 3),
    ("ada.sum(2, 3)", "exhausted reads Kind(1)", 4),
    ("nobody.age", "exhausted", 1),
    ("nobody.age", "true", 5),
    ("Sequence{ada,bob}->collect(age)", "exhausted", 6),
    (
        "Sequence{ada,bob}->collect(age)",
        "exhausted reads Slot(1,1)",
        7,
    ),
    (
        "Sequence{ada,bob}->collect(age)",
        "exhausted reads Slot(1,1)",
        9,
    ),
    (
        "Sequence{ada,bob}->collect(age)",
        "exhausted reads Slot(1,1) Slot(2,1)",
        10,
    ),
];

/// Looks at the state at entry cost as much, and read no cell.
static LOOKS_AT_ENTRY: &[Row] = &[
    ("dora.oclIsNew()", "exhausted", 1),
    ("dora.oclIsNew()", "exhausted reads Kind(7)", 2),
    ("dora.oclIsNew()", "exhausted reads Kind(7)", 3),
    ("dora.oclIsNew()", "false reads Kind(7)", 7),
    ("ada.age@pre", "exhausted", 1),
    ("ada.age@pre", "exhausted", 2),
    ("ada.age@pre", "false", 6),
    ("ada.next@pre", "exhausted", 4),
    ("ada.next@pre", "false", 11),
    ("ada.age", "exhausted reads Slot(1,1)", 2),
    ("nobody.oclIsNew()", "exhausted", 1),
    ("nobody.oclIsNew()", "true", 5),
];

#[test]
fn a_range_within_the_budget(rt: HostRuntime) -> Result<(), Fail> {
    rows_hold(rt.alloc(), ALONE, FEW)?;
    Ok(())
}

#[test]
fn the_largest_range_within_the_budget(rt: HostRuntime) -> Result<(), Fail> {
    rows_hold(rt.alloc(), ALONE, LARGEST)?;
    Ok(())
}

#[test]
fn the_smallest_range_past_the_budget(rt: HostRuntime) -> Result<(), Fail> {
    rows_hold(rt.alloc(), ALONE, SMALLEST)?;
    Ok(())
}

#[test]
fn ranges_past_the_budget_are_not_built(rt: HostRuntime) -> Result<(), Fail> {
    rows_hold(rt.alloc(), ALONE, UNBUILT)?;
    Ok(())
}

#[test]
fn level_513_is_too_deep(rt: HostRuntime) -> Result<(), Fail> {
    rows_hold(rt.alloc(), ALONE, DEPTHS)?;
    Ok(())
}

#[test]
fn a_range_is_built_where_its_units_are_left(rt: HostRuntime) -> Result<(), Fail> {
    rows_hold(rt.alloc(), PADDED, RANGES)?;
    Ok(())
}

#[test]
fn a_look_that_is_not_paid_is_not_made(rt: HostRuntime) -> Result<(), Fail> {
    rows_hold(rt.alloc(), PADDED, LOOKS)?;
    Ok(())
}

#[test]
fn looks_at_entry_are_paid(rt: HostRuntime) -> Result<(), Fail> {
    rows_hold(rt.alloc(), PADDED_AT_EXIT, LOOKS_AT_ENTRY)?;
    Ok(())
}
