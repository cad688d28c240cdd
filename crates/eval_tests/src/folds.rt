use eval_scene::{ALONE, Row, rows_hold};
use std::test::Fail;

/// `sortedBy` sorts by the keys, and keeps the order where they are equal.
static SORTED_BY: &[Row] = &[
    ("Set{1,2,3}->sortedBy(x | 0 - x)", "OrderedSet{3,2,1}", 20),
    (
        "OrderedSet{2,3,1}->sortedBy(x | x)",
        "OrderedSet{1,2,3}",
        14,
    ),
    ("Bag{2,1,2}->sortedBy(x | 0 - x)", "Sequence{2,2,1}", 20),
    ("Sequence{2,3,1}->sortedBy(x | x)", "Sequence{1,2,3}", 14),
    (
        "Sequence{'cc','b','a'}->sortedBy(s | s.size())",
        "Sequence{'b','a','cc'}",
        33,
    ),
    (
        "Sequence{5,4,3,2}->sortedBy(x | x mod 2)",
        "Sequence{4,2,5,3}",
        26,
    ),
    ("Sequence{2,1}->sortedBy(x | 7)", "Sequence{2,1}", 10),
    ("Set{}->sortedBy(x | 1)", "OrderedSet{}", 2),
    ("Sequence{}->sortedBy(x | invalid)", "Sequence{}", 2),
    ("null->sortedBy(x | 1)", "OrderedSet{}", 3),
    ("invalid->sortedBy(x | 1)", "invalid", 3),
    ("5->sortedBy(x | x)", "OrderedSet{5}", 6),
    (
        "Sequence{1,2}->sortedBy(x | if x = 1 then null else x endif)",
        "invalid",
        16,
    ),
    ("Sequence{1,0}->sortedBy(x | 1 div x)", "invalid", 12),
    ("Sequence{1}->sortedBy(null)", "invalid", 5),
    (
        "Sequence{1,'a',true,ada,#red}->sortedBy(x | x)",
        "Sequence{true,1,'a',Color::red,ada}",
        26,
    ),
    (
        "Set{ada,bob}->sortedBy(p | p.age)",
        "OrderedSet{bob,ada} reads Slot(1,1) Slot(2,1)",
        14,
    ),
    (
        "Sequence{null,1}->sortedBy(x | if x = null then 2 else 1 endif)",
        "Sequence{1,null}",
        18,
    ),
];

/// `iterate` gives what is accumulated last.
static ITERATE: &[Row] = &[
    (
        "Sequence{1..4}->iterate(x; s : Integer = 0 | s + x)",
        "10",
        21,
    ),
    (
        "Set{3,1,2}->iterate(x; s : String = '' | s + x.toString())",
        "'123'",
        36,
    ),
    (
        "Bag{2,1,2}->iterate(x; s : String = '' | s + x.toString())",
        "'122'",
        36,
    ),
    (
        "OrderedSet{3,1}->iterate(x; s : String = '' | s + x.toString())",
        "'31'",
        23,
    ),
    (
        "Sequence{1,2}->iterate(x; a : Sequence(Integer) = Sequence{} | a->prepend(x))",
        "Sequence{2,1}",
        19,
    ),
    (
        "Sequence{1,2}->iterate(x : Integer; s : Integer = 5 | x)",
        "2",
        9,
    ),
    ("Sequence{}->iterate(x; s : Integer = 5 | 1)", "5", 3),
    ("Set{}->iterate(x; s : Integer = null | 1)", "null", 3),
    ("Set{}->iterate(x; s : Integer = invalid | 1)", "invalid", 3),
    ("null->iterate(x; s : Integer = 5 | 1)", "5", 4),
    ("invalid->iterate(x; s : Integer = 5 | 1)", "invalid", 4),
    (
        "invalid->iterate(x; s : Integer = ada.age | 1)",
        "invalid reads Slot(1,1)",
        6,
    ),
    ("5->iterate(x; s : Integer = 1 | s + x)", "6", 8),
    (
        "Sequence{0,1}->iterate(x; s : Integer = 0 | 1 div x)",
        "1",
        13,
    ),
    (
        "Sequence{1,0}->iterate(x; s : Integer = 0 | 1 div x)",
        "invalid",
        13,
    ),
    (
        "Sequence{0,1}->iterate(x; s : Integer = 0 | s + 1 div x)",
        "invalid",
        17,
    ),
    (
        "Sequence{1,2}->iterate(x; s : Integer = null | if s = null then x else s endif)",
        "1",
        17,
    ),
    (
        "Sequence{1..3}->iterate(x; s : Integer = 0 | if x = 2 then null else x endif)",
        "3",
        23,
    ),
    (
        "Sequence{1..256}->iterate(x; a : OclAny = 0 | Set{a}).isDefined()",
        "true",
        0,
    ),
    (
        "Sequence{1..257}->iterate(x; a : OclAny = 0 | Set{a})",
        "invalid",
        0,
    ),
];

#[test]
fn sorted_by_is_stable(rt: HostRuntime) -> Result<(), Fail> {
    rows_hold(rt.alloc(), ALONE, SORTED_BY)?;
    Ok(())
}

#[test]
fn iterate_gives_what_is_accumulated_last(rt: HostRuntime) -> Result<(), Fail> {
    rows_hold(rt.alloc(), ALONE, ITERATE)?;
    Ok(())
}
