use crate::Rule;
use crate::firsts::{KINDS, NAMES};
use crate::production::Production;
use crate::row::Row;
use crate::row::Row::{Choice, Each, Optional, Repeated};
use crate::row::Symbol::{Production as P, Rule as R, Token as T};
use use_text::TokenKind::{
    Bag, Check, Colon, Comma, Create, Exit, Info, LeftParen, Name, Open, Openter, Opexit,
    OrderedSet, Quit, Redo, Reset, RightParen, Sequence, Set, SetWord, Undo, View,
};

/// The productions of names, those of `Production` in order.
pub(crate) static NAME_ROWS: [Row; 5] = [
    // nothing at all
    Each(&[]),
    // NAME: a name or a command word
    Choice(&[
        (&[Name], T(Name)),
        (&[Check], T(Check)),
        (&[Create], T(Create)),
        (&[Exit], T(Exit)),
        (&[Info], T(Info)),
        (&[Open], T(Open)),
        (&[Opexit], T(Opexit)),
        (&[Openter], T(Openter)),
        (&[Quit], T(Quit)),
        (&[Redo], T(Redo)),
        (&[Reset], T(Reset)),
        (&[SetWord], T(SetWord)),
        (&[Undo], T(Undo)),
        (&[View], T(View)),
    ]),
    // names := NAME { ',' NAME }
    Each(&[T(Comma), P(Production::Name)]),
    Repeated(&[Comma], P(Production::MoreName)),
    Each(&[P(Production::Name), P(Production::MoreNames)]),
];

/// The productions of types, those of `Production` in order.
pub(crate) static TYPE_ROWS: [Row; 5] = [
    // 'Set' | 'OrderedSet' | 'Bag' | 'Sequence'
    Choice(&[
        (&[Set], T(Set)),
        (&[OrderedSet], T(OrderedSet)),
        (&[Bag], T(Bag)),
        (&[Sequence], T(Sequence)),
    ]),
    // type := NAME | kind '(' type ')'
    Each(&[
        P(Production::Kind),
        T(LeftParen),
        R(Rule::Type),
        T(RightParen),
    ]),
    Choice(&[
        (NAMES, P(Production::Name)),
        (KINDS, P(Production::CollectionType)),
    ]),
    // [ ':' type ]
    Each(&[T(Colon), R(Rule::Type)]),
    Optional(&[Colon], P(Production::TypeMark)),
];
