use eval_scene::{ALONE, Row, rows_hold};
use std::test::Fail;

/// Queries with their values, worked by hand.
static WORKED: &[Row] = &[
    ("1 + 2 * 3", "7", 5),
    (
        "Sequence{3,1}->collect(x | Set{x, x+1})",
        "Sequence{3,4,1,2}",
        24,
    ),
    ("-7 div 2", "-3", 4),
    ("Sequence{}->first()", "invalid", 2),
    ("Sequence{1,2}->forAll(a, b | a <= b)", "false", 15),
    ("''.indexOf('')", "1", 3),
    ("12.toString()", "'12'", 4),
    ("(1 div 0 = 1) or true", "true", 7),
    (
        "Sequence{1..4}->iterate(x; s : Integer = 0 | s + x)",
        "10",
        21,
    ),
    ("-7 mod 2", "-1", 4),
    ("1.oclIsTypeOf(OclAny)", "false", 2),
    ("(null < 1) and true", "invalid", 5),
    ("null implies true", "true", 3),
    ("Set{3,1,3,2}", "Set{1,2,3}", 8),
    (
        "Sequence{'cc','b','a'}->sortedBy(s | s.size())",
        "Sequence{'b','a','cc'}",
        33,
    ),
    ("'Grüße'.size()", "5", 9),
    ("'abc'.substring(2, 3)", "'bc'", 9),
    ("Set{1, null}->sum()", "invalid", 6),
    ("Bag{2,1}->union(Bag{2})", "Bag{1,2,2}", 12),
    ("'Grüße'.toUpperCase()", "'GRüßE'", 16),
    (
        "(((((((((((((((((((((((((((((((((((((((((((((((((((((((((((((((((((((((((((((((((((((((((((((((((((1)))))))))))))))))))))))))))))))))))))))))))))))))))))))))))))))))))))))))))))))))))))))))))))))))))",
        "1",
        0,
    ),
    ("170141183460469231731687303715884105727 + 1", "invalid", 3),
];

#[test]
fn queries_worked_by_hand(rt: HostRuntime) -> Result<(), Fail> {
    rows_hold(rt.alloc(), ALONE, WORKED)?;
    Ok(())
}
