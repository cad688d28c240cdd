/// Classes, by number.
const PERSON: u32 = 1;

const CHIEF: u32 = 2;

const TEAM: u32 = 3;

/// Stored attributes, by number.
const NAME: u32 = 0;

const AGE: u32 = 1;

const COLOR: u32 = 2;

const FRIEND: u32 = 3;

const MARKS: u32 = 4;

const BUDGET: u32 = 5;

/// Associations, by number.
const WORKS_IN: u32 = 0;

const JOINS: u32 = 1;

/// A value that is stored.
#[derive(Clone, Copy)]
pub(crate) enum Stored {
    Number(i128),
    Word(&'static str),
    Literal(u32, u32),
    Object(u32),
    Numbers(&'static [i128]),
}

/// A step on the way to a state.
#[derive(Clone, Copy)]
pub(crate) enum Move {
    /// An object of a name and a class.
    Create(&'static str, u32),
    /// The same, after which one number is left out.
    CreateApart(&'static str, u32),
    /// An attribute of an object.
    Set(u32, u32, Stored),
    /// A link of an association between two objects.
    Link(u32, u32, u32),
}

/// Objects 1 to 6, at the entry of an operation: `gone` has number 5.
pub(crate) static MOVES_TO_ENTRY: &[Move] = &[
    Move::Create("ada", PERSON),
    Move::Create("bob", PERSON),
    Move::Create("cy", CHIEF),
    Move::Create("t", TEAM),
    Move::Create("gone", PERSON),
    Move::Create("u", TEAM),
    Move::Set(1, NAME, Stored::Word("Ada")),
    Move::Set(1, AGE, Stored::Number(36)),
    Move::Set(1, COLOR, Stored::Literal(0, 0)),
    Move::Set(1, FRIEND, Stored::Object(2)),
    Move::Set(1, MARKS, Stored::Numbers(&[3, 1])),
    Move::Set(2, AGE, Stored::Number(17)),
    Move::Set(4, BUDGET, Stored::Number(100)),
    Move::Set(5, AGE, Stored::Number(9)),
    Move::Link(WORKS_IN, 1, 4),
    Move::Link(JOINS, 1, 6),
];

/// The same without `gone`, with another age and color, more links, and the new object 7.
pub(crate) static MOVES_TO_NOW: &[Move] = &[
    Move::Create("ada", PERSON),
    Move::Create("bob", PERSON),
    Move::Create("cy", CHIEF),
    Move::CreateApart("t", TEAM),
    Move::Create("u", TEAM),
    Move::Set(1, NAME, Stored::Word("Ada")),
    Move::Set(1, AGE, Stored::Number(40)),
    Move::Set(1, COLOR, Stored::Literal(0, 0)),
    Move::Set(1, FRIEND, Stored::Object(2)),
    Move::Set(1, MARKS, Stored::Numbers(&[3, 1])),
    Move::Set(2, AGE, Stored::Number(17)),
    Move::Set(2, COLOR, Stored::Literal(0, 1)),
    Move::Set(4, BUDGET, Stored::Number(100)),
    Move::Link(WORKS_IN, 1, 4),
    Move::Link(JOINS, 1, 6),
    Move::Link(JOINS, 1, 4),
    Move::Link(WORKS_IN, 2, 4),
    Move::Link(WORKS_IN, 3, 4),
    Move::Link(WORKS_IN, 3, 6),
    Move::Create("dora", PERSON),
];
