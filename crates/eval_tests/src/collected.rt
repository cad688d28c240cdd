use eval_scene::{ALONE, Row, rows_hold};
use std::test::Fail;

/// `collectNested` gives the bodies, null among them.
static COLLECT_NESTED: &[Row] = &[
    ("Set{1,2}->collectNested(x | x mod 1)", "Bag{0,0}", 14),
    ("Bag{2,1}->collectNested(x | 0 - x)", "Bag{-2,-1}", 14),
    (
        "Sequence{2,1}->collectNested(x | x + 1)",
        "Sequence{3,2}",
        14,
    ),
    ("OrderedSet{2,1}->collectNested(x | 7)", "Sequence{7,7}", 10),
    ("Set{}->collectNested(x | 1)", "Bag{}", 2),
    ("Sequence{}->collectNested(x | invalid)", "Sequence{}", 2),
    ("null->collectNested(x | 1)", "Bag{}", 3),
    ("invalid->collectNested(x | 1)", "invalid", 3),
    ("5->collectNested(x | x)", "Bag{5}", 6),
    (
        "Sequence{1,2}->collectNested(x | if x = 1 then null else x endif)",
        "Sequence{null,2}",
        18,
    ),
    ("Sequence{1,0}->collectNested(x | 1 div x)", "invalid", 12),
    ("Sequence{0,1}->collectNested(x | 1 div x)", "invalid", 12),
    (
        "Sequence{1,2}->collectNested(x | Sequence{x,x})",
        "Sequence{Sequence{1,1},Sequence{2,2}}",
        22,
    ),
    ("Set{1}->collectNested(x | Set{})", "Bag{Set{}}", 6),
];

/// `collect` flattens what `collectNested` gives.
static COLLECT: &[Row] = &[
    (
        "Sequence{3,1}->collect(x | Set{x, x+1})",
        "Sequence{3,4,1,2}",
        24,
    ),
    ("Set{1,2}->collect(x | Sequence{x,0})", "Bag{0,0,1,2}", 20),
    ("Bag{2,1}->collect(x | x + 1)", "Bag{2,3}", 14),
    ("OrderedSet{2,1}->collect(x | 7)", "Sequence{7,7}", 10),
    ("Set{}->collect(x | 1)", "Bag{}", 2),
    ("Sequence{}->collect(x | invalid)", "Sequence{}", 2),
    ("null->collect(x | 1)", "Bag{}", 3),
    ("invalid->collect(x | 1)", "invalid", 3),
    ("5->collect(x | x)", "Bag{5}", 6),
    (
        "Sequence{1,2}->collect(x | if x = 1 then null else x endif)",
        "Sequence{null,2}",
        18,
    ),
    ("Sequence{1,0}->collect(x | 1 div x)", "invalid", 12),
    (
        "Sequence{1}->collect(x | Set{Set{x},Set{}})",
        "Sequence{1}",
        13,
    ),
    (
        "Sequence{1,2}->collect(x | if x = 1 then null else Set{x} endif)",
        "Sequence{null,2}",
        21,
    ),
    ("Sequence{1,2}->collect(x | Set{})", "Sequence{}", 8),
    (
        "Sequence{Set{1},Set{2}}->collect(x | x)",
        "Sequence{1,2}",
        18,
    ),
    (
        "Sequence{ada,bob}->collect(age)",
        "Sequence{40,17} reads Slot(1,1) Slot(2,1)",
        14,
    ),
];

/// Values that nest 256 collections, and those that would nest more.
static NESTED: &[Row] = &[
    (
        "Sequence{1}->collectNested(y | Sequence{1..255}->iterate(x; a : OclAny = 0 | Set{a})).isDefined()",
        "true",
        0,
    ),
    (
        "Sequence{1}->collectNested(y | Sequence{1..256}->iterate(x; a : OclAny = 0 | Set{a}))",
        "invalid",
        0,
    ),
    (
        "Sequence{1}->collect(y | Sequence{1..255}->iterate(x; a : OclAny = 0 | Set{a}))",
        "Sequence{0}",
        0,
    ),
    (
        "Sequence{1}->collect(y | Sequence{1..256}->iterate(x; a : OclAny = 0 | Set{a}))",
        "invalid",
        0,
    ),
    (
        "Sequence{}->including(Sequence{1..256}->iterate(x; a : OclAny = 0 | Set{a}))",
        "invalid",
        0,
    ),
];

#[test]
fn collect_nested_keeps_collections_and_null(rt: HostRuntime) -> Result<(), Fail> {
    rows_hold(rt.alloc(), ALONE, COLLECT_NESTED)?;
    Ok(())
}

#[test]
fn collect_flattens(rt: HostRuntime) -> Result<(), Fail> {
    rows_hold(rt.alloc(), ALONE, COLLECT)?;
    Ok(())
}

#[test]
fn values_that_nest_too_deep(rt: HostRuntime) -> Result<(), Fail> {
    rows_hold(rt.alloc(), ALONE, NESTED)?;
    Ok(())
}
