use eval_scene::{ALONE, Row, rows_hold};
use std::test::Fail;

/// `=` and `<>`.
static EQUALITY: &[Row] = &[
    ("1 = 1", "true", 3),
    ("1 = 2", "false", 3),
    ("1 <> 2", "true", 3),
    ("1 <> 1", "false", 3),
    ("null = null", "true", 3),
    ("null = 1", "false", 3),
    ("null <> 1", "true", 3),
    ("null <> null", "false", 3),
    ("invalid = 1", "invalid", 3),
    ("1 = invalid", "invalid", 3),
    ("invalid <> invalid", "invalid", 3),
    ("null = invalid", "invalid", 3),
    ("'a' = 'a'", "true", 5),
    ("'a' = 'A'", "false", 5),
    ("1 = 'a'", "false", 4),
    ("true = true", "true", 3),
    ("Color::red = #red", "true", 3),
    ("Color::red = #green", "false", 3),
    ("ada = ada", "true", 3),
    ("ada = bob", "false", 3),
    ("gone = gone", "true", 3),
    ("gone = null", "false", 3),
    ("nobody = null", "true", 3),
    ("Set{1,2} = Set{2,1}", "true", 11),
    ("Sequence{1,2} = Sequence{2,1}", "false", 11),
    ("Set{1} = Bag{1}", "false", 7),
    ("Set{} = Sequence{}", "false", 3),
    ("OrderedSet{1,2} = OrderedSet{2,1}", "false", 11),
    ("Bag{1,2,1} = Bag{1,1,2}", "true", 15),
    ("ada.friend = bob", "true reads Slot(1,3)", 5),
];

/// Operators of Integers.
static NUMBERS: &[Row] = &[
    ("2 + 3", "5", 3),
    ("2 - 3", "-1", 3),
    ("2 * 3", "6", 3),
    ("7 div 2", "3", 3),
    ("-7 div 2", "-3", 4),
    ("7 div -2", "-3", 4),
    ("7 mod 2", "1", 3),
    ("-7 mod 2", "-1", 4),
    ("7 mod -2", "1", 4),
    ("7 div 0", "invalid", 3),
    ("7 mod 0", "invalid", 3),
    (
        "(-170141183460469231731687303715884105727 - 1) div -1",
        "invalid",
        7,
    ),
    (
        "(-170141183460469231731687303715884105727 - 1) mod -1",
        "invalid",
        7,
    ),
    ("170141183460469231731687303715884105727 + 1", "invalid", 3),
    ("-170141183460469231731687303715884105727 - 2", "invalid", 4),
    ("170141183460469231731687303715884105727 * 2", "invalid", 3),
    ("1 < 2", "true", 3),
    ("2 < 2", "false", 3),
    ("2 <= 2", "true", 3),
    ("3 <= 2", "false", 3),
    ("3 > 2", "true", 3),
    ("2 > 2", "false", 3),
    ("2 >= 2", "true", 3),
    ("1 >= 2", "false", 3),
    ("null + 1", "invalid", 3),
    ("1 + null", "invalid", 3),
    ("null < 1", "invalid", 3),
    ("1 >= invalid", "invalid", 3),
    ("null * null", "invalid", 3),
    ("1 div 0 + ada.age", "invalid reads Slot(1,1)", 7),
    ("null + ada.age", "invalid reads Slot(1,1)", 5),
];

/// Operators of Strings, and `-` of Sets.
static WORDS: &[Row] = &[
    ("'ab' + 'c'", "'abc'", 9),
    ("'a' < 'b'", "true", 5),
    ("'b' < 'a'", "false", 5),
    ("'B' < 'a'", "true", 5),
    ("'a' <= 'a'", "true", 5),
    ("'ab' > 'a'", "true", 6),
    ("'a' >= 'ä'", "false", 6),
    ("null + 'a'", "invalid", 4),
    ("'a' + null", "invalid", 4),
    ("'a' < null", "invalid", 4),
    ("Set{1,2,3} - Set{2,5}", "Set{1,3}", 15),
    ("Set{1,null} - Set{null}", "Set{1}", 10),
    ("Set{1} - null", "invalid", 5),
    ("null - Set{1}", "invalid", 5),
    ("Set{1} - Set{}", "Set{1}", 6),
];

/// Written collections.
static WRITTEN: &[Row] = &[
    ("Set{}", "Set{}", 1),
    ("Sequence{}", "Sequence{}", 1),
    ("Set{3,1,3,2}", "Set{1,2,3}", 8),
    ("OrderedSet{3,1,3,2}", "OrderedSet{3,1,2}", 8),
    ("Bag{3,1,3,2}", "Bag{1,2,3,3}", 9),
    ("Sequence{3,1,3,2}", "Sequence{3,1,3,2}", 9),
    ("Set{1,null}", "Set{null,1}", 5),
    ("Set{1,invalid}", "invalid", 3),
    ("Sequence{1 div 0}", "invalid", 4),
    (
        "Set{'b',2,true,null,ada,#green,-1,false,'a',#red,bob}",
        "Set{null,false,true,-1,2,'a','b',Color::red,Color::green,ada,bob}",
        28,
    ),
    ("Set{Set{2,1},Set{1,2},Set{1}}", "Set{Set{1},Set{1,2}}", 19),
    (
        "Bag{Sequence{1},Set{2},Bag{3},OrderedSet{4}}",
        "Bag{Set{2},OrderedSet{4},Bag{3},Sequence{1}}",
        21,
    ),
    (
        "Sequence{gone,ada,nobody}",
        "Sequence{destroyed(5),ada,null}",
        7,
    ),
    ("Sequence{1..3}", "Sequence{1,2,3}", 6),
    ("Sequence{2..2}", "Sequence{2}", 4),
    ("Sequence{3..1}", "Sequence{}", 3),
    ("Sequence{-1..1}", "Sequence{-1,0,1}", 7),
    ("Set{5,1..3,2..4}", "Set{1,2,3,4,5}", 11),
    ("OrderedSet{3,1..4}", "OrderedSet{3,1,2,4}", 8),
    ("Bag{1..2,2..3}", "Bag{1,2,2,3}", 9),
    (
        "Sequence{170141183460469231731687303715884105726..170141183460469231731687303715884105727}",
        "Sequence{170141183460469231731687303715884105726,170141183460469231731687303715884105727}",
        5,
    ),
    ("Sequence{1..null}", "invalid", 3),
    ("Sequence{null..3}", "invalid", 3),
    ("Sequence{3..1 div 0}", "invalid", 5),
    ("Sequence{1..null, ada.age}", "invalid reads Slot(1,1)", 6),
    ("Sequence{1 div 0, ada.age}", "invalid reads Slot(1,1)", 7),
    (
        "Sequence{bob.age..18}",
        "Sequence{17,18} reads Slot(2,1)",
        7,
    ),
    (
        "Set{ada.age, bob.age, ada.age}",
        "Set{17,40} reads Slot(1,1) Slot(2,1)",
        12,
    ),
];

#[test]
fn equal_values(rt: HostRuntime) -> Result<(), Fail> {
    rows_hold(rt.alloc(), ALONE, EQUALITY)?;
    Ok(())
}

#[test]
fn operators_of_integers(rt: HostRuntime) -> Result<(), Fail> {
    rows_hold(rt.alloc(), ALONE, NUMBERS)?;
    Ok(())
}

#[test]
fn operators_of_strings_and_sets(rt: HostRuntime) -> Result<(), Fail> {
    rows_hold(rt.alloc(), ALONE, WORDS)?;
    Ok(())
}

#[test]
fn written_collections(rt: HostRuntime) -> Result<(), Fail> {
    rows_hold(rt.alloc(), ALONE, WRITTEN)?;
    Ok(())
}
