use eval_scene::{ALONE, Row, rows_hold};
use std::test::Fail;

/// Attributes.
static ATTRIBUTES: &[Row] = &[
    ("ada.age", "40 reads Slot(1,1)", 3),
    ("ada.name", "'Ada' reads Slot(1,0)", 6),
    ("ada.color", "Color::red reads Slot(1,2)", 3),
    ("ada.marks", "Sequence{3,1} reads Slot(1,4)", 5),
    ("bob.name", "null reads Slot(2,0)", 3),
    ("ada.friend.age", "17 reads Slot(1,3) Slot(2,1)", 5),
    ("bob.friend.age", "invalid reads Slot(2,3)", 4),
    (
        "ada.friend.friend.age",
        "invalid reads Slot(1,3) Slot(2,3)",
        6,
    ),
    ("nobody.age", "invalid", 2),
    ("gone.age", "invalid reads Slot(5,1)", 3),
    ("cy.age", "null reads Slot(3,1)", 3),
    (
        "Set{ada,bob}.age",
        "Bag{17,40} reads Slot(1,1) Slot(2,1)",
        14,
    ),
    (
        "Sequence{ada,bob}.age",
        "Sequence{40,17} reads Slot(1,1) Slot(2,1)",
        14,
    ),
    (
        "OrderedSet{ada,bob}.age",
        "Sequence{40,17} reads Slot(1,1) Slot(2,1)",
        14,
    ),
    (
        "Sequence{ada,cy}.marks",
        "Sequence{3,1,null} reads Slot(1,4) Slot(3,4)",
        17,
    ),
    ("Set{ada,gone}.age", "invalid reads Slot(1,1) Slot(5,1)", 12),
    ("Set{ada,nobody}.age", "invalid reads Slot(1,1)", 11),
    (
        "let x = ada.age in Set{x, ada.age}->size()",
        "1 reads Slot(1,1)",
        11,
    ),
];

/// Ends of associations.
static NAVIGATION: &[Row] = &[
    ("ada.team", "t reads Nav(0,Second,1)", 3),
    ("dora.team", "null reads Nav(0,Second,7)", 3),
    ("cy.team", "invalid reads Nav(0,Second,3)", 3),
    ("t.staff", "Set{ada,bob,cy} reads Nav(0,First,4)", 6),
    ("u.staff", "Set{cy} reads Nav(0,First,6)", 4),
    ("ada.joined", "OrderedSet{u,t} reads Nav(1,Second,1)", 5),
    ("bob.joined", "OrderedSet{} reads Nav(1,Second,2)", 3),
    ("t.member", "Set{ada} reads Nav(1,First,4)", 4),
    ("gone.team", "invalid reads Nav(0,Second,5)", 3),
    ("gone.joined", "invalid reads Nav(1,Second,5)", 3),
    ("nobody.team", "invalid", 2),
    ("nobody.joined", "invalid", 2),
    ("ada.team.budget", "100 reads Slot(4,5) Nav(0,Second,1)", 5),
    ("dora.team.budget", "invalid reads Nav(0,Second,7)", 4),
    (
        "t.staff.age",
        "Bag{null,17,40} reads Slot(1,1) Slot(2,1) Slot(3,1) Nav(0,First,4)",
        19,
    ),
    (
        "t.staff.team",
        "invalid reads Nav(0,First,4) Nav(0,Second,1) Nav(0,Second,2) Nav(0,Second,3)",
        16,
    ),
    (
        "ada.joined.staff",
        "Sequence{cy,ada,bob,cy} reads Nav(0,First,4) Nav(0,First,6) Nav(1,Second,1)",
        20,
    ),
    ("t.staff->size()", "3 reads Nav(0,First,4)", 7),
];

/// Derived attributes.
static DERIVED: &[Row] = &[
    ("ada.next", "41 reads Kind(1) Slot(1,1)", 8),
    ("ada.later", "42 reads Kind(1) Slot(1,1)", 13),
    ("dora.next", "invalid reads Kind(7) Slot(7,1)", 8),
    ("gone.next", "invalid reads Kind(5)", 3),
    ("nobody.next", "invalid", 2),
    ("cy.mates", "invalid reads Kind(3) Nav(0,Second,3)", 7),
    (
        "ada.mates",
        "Set{ada,bob,cy} reads Kind(1) Nav(0,First,4) Nav(0,Second,1)",
        14,
    ),
    (
        "ada.others",
        "Set{ada,bob,cy,dora} reads Kind(1) Extent(1)",
        13,
    ),
    ("ada.fits", "true reads Kind(1)", 6),
    ("gone.fits", "invalid reads Kind(5)", 3),
    ("cy.title", "2 reads Kind(3)", 7),
    (
        "Sequence{ada,bob}.next",
        "Sequence{41,18} reads Kind(1) Kind(2) Slot(1,1) Slot(2,1)",
        24,
    ),
    ("ada.loop", "exhausted reads Kind(1)", 0),
];

/// Operations with a query.
static QUERIES: &[Row] = &[
    ("ada.label()", "'Ada!' reads Kind(1) Slot(1,0)", 20),
    ("bob.label()", "invalid reads Kind(2) Slot(2,0)", 9),
    ("ada.sum(2, 3)", "46 reads Kind(1) Slot(1,1)", 12),
    ("ada.sum(1, null)", "invalid reads Kind(1) Slot(1,1)", 12),
    (
        "ada.sum(bob.age, 2)",
        "74 reads Kind(1) Slot(1,1) Slot(2,1)",
        14,
    ),
    ("ada.rank()", "1 reads Kind(1)", 4),
    ("cy.rank()", "2 reads Kind(3)", 4),
    (
        "Sequence{bob,cy}->collect(rank())",
        "Sequence{1,2} reads Kind(2) Kind(3)",
        16,
    ),
    ("cy.base()", "2 reads Kind(3)", 7),
    ("ada.blank()", "invalid reads Kind(1)", 3),
    ("gone.rank()", "invalid reads Kind(5)", 3),
    ("nobody.rank()", "invalid", 2),
    ("nobody.sum(ada.age, 1)", "invalid reads Slot(1,1)", 6),
    ("gone.sum(ada.age, 1)", "invalid reads Kind(5) Slot(1,1)", 7),
    ("ada.down(3)", "0 reads Kind(1)", 39),
    (
        "let x = 5 in ada.sum(x, x)",
        "65 reads Kind(1) Slot(1,1)",
        14,
    ),
    (
        "t.staff.rank()",
        "Bag{1,1,2} reads Kind(1) Kind(2) Kind(3) Nav(0,First,4)",
        22,
    ),
];

#[test]
fn stored_attributes(rt: HostRuntime) -> Result<(), Fail> {
    rows_hold(rt.alloc(), ALONE, ATTRIBUTES)?;
    Ok(())
}

#[test]
fn ends_of_associations(rt: HostRuntime) -> Result<(), Fail> {
    rows_hold(rt.alloc(), ALONE, NAVIGATION)?;
    Ok(())
}

#[test]
fn derived_attributes(rt: HostRuntime) -> Result<(), Fail> {
    rows_hold(rt.alloc(), ALONE, DERIVED)?;
    Ok(())
}

#[test]
fn operations_with_a_query(rt: HostRuntime) -> Result<(), Fail> {
    rows_hold(rt.alloc(), ALONE, QUERIES)?;
    Ok(())
}
