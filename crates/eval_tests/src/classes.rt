use eval_scene::{ALONE, AT_EXIT, Row, rows_hold};
use std::test::Fail;

/// Instances of classes.
static EXTENTS: &[Row] = &[
    (
        "Person.allInstances()",
        "Set{ada,bob,cy,dora} reads Extent(1)",
        6,
    ),
    (
        "Being.allInstances",
        "Set{ada,bob,cy,t,u,dora} reads Extent(0)",
        8,
    ),
    ("Chief.allInstances()", "Set{cy} reads Extent(2)", 3),
    ("Team.allInstances()", "Set{t,u} reads Extent(3)", 4),
    (
        "Person.allInstances()->includes(gone)",
        "false reads Extent(1)",
        8,
    ),
    (
        "Chief.allInstances().rank()",
        "Bag{2} reads Kind(3) Extent(2)",
        9,
    ),
];

/// Tests of types.
static TYPES: &[Row] = &[
    ("ada.oclIsTypeOf(Person)", "true reads Kind(1)", 3),
    ("cy.oclIsTypeOf(Person)", "false reads Kind(3)", 3),
    ("cy.oclIsTypeOf(Chief)", "true reads Kind(3)", 3),
    ("cy.oclIsTypeOf(Being)", "false reads Kind(3)", 3),
    ("ada.oclIsTypeOf(OclAny)", "false reads Kind(1)", 3),
    ("ada.oclIsTypeOf(Team)", "false reads Kind(1)", 3),
    ("cy.oclIsKindOf(Person)", "true reads Kind(3)", 3),
    ("cy.oclIsKindOf(Being)", "true reads Kind(3)", 3),
    ("ada.oclIsKindOf(Chief)", "false reads Kind(1)", 3),
    ("ada.oclIsKindOf(OclAny)", "true reads Kind(1)", 3),
    ("ada.oclIsKindOf(Integer)", "false reads Kind(1)", 3),
    ("cy.oclAsType(Chief)", "cy reads Kind(3)", 3),
    ("cy.oclAsType(Being)", "cy reads Kind(3)", 3),
    ("ada.oclAsType(Chief)", "invalid reads Kind(1)", 3),
    ("cy.oclAsType(Person).rank()", "2 reads Kind(3)", 6),
    ("gone.oclIsTypeOf(Person)", "invalid reads Kind(5)", 3),
    ("gone.oclIsKindOf(OclAny)", "invalid reads Kind(5)", 3),
    ("gone.oclAsType(Person)", "invalid reads Kind(5)", 3),
    ("nobody.oclIsTypeOf(Person)", "invalid", 2),
    ("null.oclIsKindOf(OclAny)", "invalid", 2),
    ("invalid.oclIsTypeOf(Integer)", "invalid", 2),
    ("nobody.oclAsType(Person)", "invalid", 2),
    ("1.oclIsTypeOf(Integer)", "true", 2),
    ("1.oclIsTypeOf(OclAny)", "false", 2),
    ("1.oclIsKindOf(OclAny)", "true", 2),
    ("1.oclIsKindOf(Person)", "false", 2),
    ("true.oclIsTypeOf(Boolean)", "true", 2),
    ("'a'.oclIsKindOf(Integer)", "false", 3),
    ("'a'.oclAsType(String)", "'a'", 4),
    ("'a'.oclAsType(Integer)", "invalid", 3),
    ("#red.oclIsTypeOf(Color)", "true", 2),
    ("#red.oclAsType(OclAny)", "Color::red", 2),
    ("Set{1,2}.oclIsTypeOf(Integer)", "Bag{true,true}", 12),
    (
        "Sequence{ada,1}->collect(x | x.oclIsKindOf(Person))",
        "Sequence{true,false} reads Kind(1)",
        13,
    ),
    (
        "(if true then Set{1} else 2 endif).oclIsKindOf(OclAny)",
        "true",
        7,
    ),
    (
        "(if true then Set{1} else 2 endif).oclIsTypeOf(Integer)",
        "false",
        7,
    ),
    (
        "(if true then Set{1} else 2 endif).oclAsType(Integer)",
        "invalid",
        7,
    ),
];

/// What a postcondition asks of the state at entry.
static AT_ENTRY: &[Row] = &[
    ("ada.age@pre", "36", 3),
    ("ada.age", "40 reads Slot(1,1)", 3),
    ("ada.age - ada.age@pre", "4 reads Slot(1,1)", 7),
    ("gone.age@pre", "9", 3),
    ("gone.age", "invalid reads Slot(5,1)", 3),
    ("dora.age@pre", "invalid", 3),
    ("nobody.age@pre", "invalid", 2),
    ("ada.team@pre", "t", 3),
    ("bob.team@pre", "null", 3),
    ("bob.team", "t reads Nav(0,Second,2)", 3),
    ("cy.team@pre", "null", 3),
    ("dora.team@pre", "invalid", 3),
    ("gone.team@pre", "null", 3),
    ("t.staff@pre", "Set{ada}", 4),
    ("ada.joined@pre", "OrderedSet{u}", 4),
    ("t.staff@pre.age", "Bag{40} reads Slot(1,1)", 9),
    (
        "t.staff.age@pre",
        "Bag{null,17,36} reads Nav(0,First,4)",
        19,
    ),
    ("ada.friend@pre.age@pre", "17", 5),
    (
        "Person.allInstances@pre()",
        "Set{ada,bob,cy,destroyed(5)}",
        6,
    ),
    ("Person.allInstances@pre->size()", "4", 7),
    (
        "Person.allInstances()",
        "Set{ada,bob,cy,dora} reads Extent(1)",
        6,
    ),
    (
        "Person.allInstances@pre()->collect(p | p.age@pre)",
        "Bag{null,9,17,36}",
        23,
    ),
    ("ada.next@pre", "37", 8),
    ("ada.later@pre", "38", 13),
    ("gone.next@pre", "10", 8),
    ("dora.next@pre", "invalid", 3),
    ("ada.mates@pre", "Set{ada}", 10),
    ("ada.others@pre", "Set{ada,bob,cy,destroyed(5)}", 13),
    ("gone.fits@pre", "true", 6),
    ("gone.title@pre", "1", 7),
    ("dora.oclIsNew()", "true reads Kind(7)", 4),
    ("ada.oclIsNew()", "false reads Kind(1)", 4),
    ("gone.oclIsNew()", "false reads Kind(5)", 4),
    ("nobody.oclIsNew()", "invalid", 2),
    ("1.oclIsNew()", "invalid", 2),
    ("invalid.oclIsNew()", "invalid", 2),
    (
        "Sequence{ada,dora}->select(p | p.oclIsNew())",
        "Sequence{dora} reads Kind(1) Kind(7)",
        15,
    ),
    ("ada.loop@pre", "exhausted", 0),
];

#[test]
fn instances_of_classes(rt: HostRuntime) -> Result<(), Fail> {
    rows_hold(rt.alloc(), ALONE, EXTENTS)?;
    Ok(())
}

#[test]
fn tests_of_types(rt: HostRuntime) -> Result<(), Fail> {
    rows_hold(rt.alloc(), ALONE, TYPES)?;
    Ok(())
}

#[test]
fn the_state_at_entry(rt: HostRuntime) -> Result<(), Fail> {
    rows_hold(rt.alloc(), AT_EXIT, AT_ENTRY)?;
    Ok(())
}
