use crate::Rule;
use crate::firsts::{EXPRESSIONS, KINDS, NAMES};
use crate::production::Production;
use crate::row::Row;
use crate::row::Row::{Choice, Each, Optional, OrElse, Repeated};
use crate::row::Symbol::{Production as P, Rule as R, Token as T};
use use_text::TokenKind::{
    And, Arrow, AtPre, Bar, Colon, Comma, Div, Dot, DoubleColon, DoubleDot, Else, Endif, Equal,
    False, Greater, GreaterEqual, Hash, If, Implies, In, Int, Invalid, LeftBrace, LeftParen, Less,
    LessEqual, Let, Minus, Mod, Not, NotEqual, Null, Or, Plus, RightBrace, RightParen, Semicolon,
    Star, Str, Then, True, Undefined, Xor,
};

/// The productions of items of arguments, those of `Production` in order.
pub(crate) static ITEM_ROWS: [Row; 5] = [
    // item := expr [ ':' type [ '=' expr ] ]
    Each(&[T(Equal), R(Rule::Expr)]),
    Optional(&[Equal], P(Production::ItemStart)),
    Each(&[T(Colon), R(Rule::Type), P(Production::OptionalItemStart)]),
    Optional(&[Colon], P(Production::ItemType)),
    Each(&[R(Rule::Expr), P(Production::OptionalItemType)]),
];

/// The productions of arguments, those of `Production` in order.
pub(crate) static ARGS_ROWS: [Row; 10] = [
    // args := '(' [ item { ',' item } [ ';' item ] [ '|' expr ] ] ')'
    Each(&[T(Comma), R(Rule::Item)]),
    Repeated(&[Comma], P(Production::MoreItem)),
    Each(&[T(Semicolon), R(Rule::Item)]),
    Optional(&[Semicolon], P(Production::LastItem)),
    Each(&[T(Bar), R(Rule::Expr)]),
    Optional(&[Bar], P(Production::Body)),
    Each(&[
        R(Rule::Item),
        P(Production::MoreItems),
        P(Production::OptionalLastItem),
        P(Production::OptionalBody),
    ]),
    Optional(EXPRESSIONS, P(Production::Items)),
    Each(&[T(LeftParen), P(Production::OptionalItems), T(RightParen)]),
    Optional(&[LeftParen], R(Rule::Args)),
];

/// The productions of collections, those of `Production` in order.
pub(crate) static COLLECTION_ROWS: [Row; 8] = [
    // part := expr [ '..' expr ]
    Each(&[T(DoubleDot), R(Rule::Expr)]),
    Optional(&[DoubleDot], P(Production::PartEnd)),
    Each(&[R(Rule::Expr), P(Production::OptionalPartEnd)]),
    // collection := kind '{' [ part { ',' part } ] '}'
    Each(&[T(Comma), R(Rule::Part)]),
    Repeated(&[Comma], P(Production::MorePart)),
    Each(&[R(Rule::Part), P(Production::MoreParts)]),
    Optional(EXPRESSIONS, P(Production::Parts)),
    Each(&[
        P(Production::Kind),
        T(LeftBrace),
        P(Production::OptionalParts),
        T(RightBrace),
    ]),
];

/// The productions of names, literals, groups and choices, those of `Production` in order.
pub(crate) static NAMED_ROWS: [Row; 7] = [
    // named := NAME [ '::' NAME ] [ '@pre' ] [ args ]
    Each(&[T(DoubleColon), P(Production::Name)]),
    Optional(&[DoubleColon], P(Production::Member)),
    Optional(&[AtPre], T(AtPre)),
    Each(&[
        P(Production::Name),
        P(Production::OptionalMember),
        P(Production::OptionalAtPre),
        P(Production::OptionalArgs),
    ]),
    // literal := '#' NAME
    Each(&[T(Hash), P(Production::Name)]),
    // group := '(' expr ')'
    Each(&[T(LeftParen), R(Rule::Expr), T(RightParen)]),
    // choice := 'if' expr 'then' expr 'else' expr 'endif'
    Each(&[
        T(If),
        R(Rule::Expr),
        T(Then),
        R(Rule::Expr),
        T(Else),
        R(Rule::Expr),
        T(Endif),
    ]),
];

/// The productions of primary expressions, those of `Production` in order.
pub(crate) static PRIMARY_ROWS: [Row; 1] = [
    // primary := INT | STRING | 'true' | 'false' | 'null' | 'Undefined' | 'invalid' | literal | collection | named | group | choice
    Choice(&[
        (&[Int], T(Int)),
        (&[Str], T(Str)),
        (&[True], T(True)),
        (&[False], T(False)),
        (&[Null], T(Null)),
        (&[Undefined], T(Undefined)),
        (&[Invalid], T(Invalid)),
        (&[Hash], R(Rule::Literal)),
        (KINDS, R(Rule::Collection)),
        (NAMES, R(Rule::Named)),
        (&[LeftParen], R(Rule::Group)),
        (&[If], R(Rule::Choice)),
    ]),
];

/// The productions of members behind a dot, those of `Production` in order.
pub(crate) static DOT_ROWS: [Row; 5] = [
    // dot := '.' ( NAME [ '@pre' ] [ args ] | ( 'div' | 'mod' ) args )
    Each(&[
        P(Production::Name),
        P(Production::OptionalAtPre),
        P(Production::OptionalArgs),
    ]),
    Each(&[T(Div), R(Rule::Args)]),
    Each(&[T(Mod), R(Rule::Args)]),
    Choice(&[
        (NAMES, P(Production::Property)),
        (&[Div], P(Production::DottedDiv)),
        (&[Mod], P(Production::DottedMod)),
    ]),
    Each(&[T(Dot), P(Production::DotMember)]),
];

/// The productions of members behind an arrow, and of rows of members, those of `Production` in order.
pub(crate) static POSTFIX_ROWS: [Row; 4] = [
    // arrow := '->' NAME [ args ]
    Each(&[T(Arrow), P(Production::Name), P(Production::OptionalArgs)]),
    // postfix := primary { dot | arrow }
    Choice(&[(&[Dot], R(Rule::Dot)), (&[Arrow], R(Rule::Arrow))]),
    Repeated(&[Dot, Arrow], P(Production::PostfixStep)),
    Each(&[R(Rule::Primary), P(Production::PostfixSteps)]),
];

/// The productions of `let` and of unary operators, those of `Production` in order.
pub(crate) static UNARY_ROWS: [Row; 7] = [
    // bind := NAME [ ':' type ] '=' expr
    Each(&[
        P(Production::Name),
        P(Production::OptionalTypeMark),
        T(Equal),
        R(Rule::Expr),
    ]),
    // let := 'let' bind { ',' bind } 'in' expr
    Each(&[T(Comma), R(Rule::Bind)]),
    Repeated(&[Comma], P(Production::MoreBind)),
    Each(&[
        T(Let),
        R(Rule::Bind),
        P(Production::MoreBinds),
        T(In),
        R(Rule::Expr),
    ]),
    // unary := ( 'not' | '-' ) unary | let | postfix
    Each(&[T(Not), R(Rule::Unary)]),
    Each(&[T(Minus), R(Rule::Unary)]),
    OrElse(
        &[
            (&[Not], P(Production::Not)),
            (&[Minus], P(Production::Negative)),
            (&[Let], R(Rule::Let)),
        ],
        R(Rule::Postfix),
    ),
];

/// The productions of arithmetic operators, those of `Production` in order.
pub(crate) static ARITHMETIC_ROWS: [Row; 8] = [
    // muls := unary { ( '*' | 'div' | 'mod' ) unary }
    Choice(&[(&[Star], T(Star)), (&[Div], T(Div)), (&[Mod], T(Mod))]),
    Each(&[P(Production::MulOperator), R(Rule::Unary)]),
    Repeated(&[Star, Div, Mod], P(Production::MulStep)),
    Each(&[R(Rule::Unary), P(Production::MulSteps)]),
    // sums := muls { ( '+' | '-' ) muls }
    Choice(&[(&[Plus], T(Plus)), (&[Minus], T(Minus))]),
    Each(&[P(Production::SumOperator), R(Rule::Muls)]),
    Repeated(&[Plus, Minus], P(Production::SumStep)),
    Each(&[R(Rule::Muls), P(Production::SumSteps)]),
];

/// The productions of comparisons, those of `Production` in order.
pub(crate) static COMPARISON_ROWS: [Row; 8] = [
    // rels := sums { ( '<' | '<=' | '>' | '>=' ) sums }
    Choice(&[
        (&[Less], T(Less)),
        (&[LessEqual], T(LessEqual)),
        (&[Greater], T(Greater)),
        (&[GreaterEqual], T(GreaterEqual)),
    ]),
    Each(&[P(Production::RelOperator), R(Rule::Sums)]),
    Repeated(
        &[Less, LessEqual, Greater, GreaterEqual],
        P(Production::RelStep),
    ),
    Each(&[R(Rule::Sums), P(Production::RelSteps)]),
    // eqs := rels { ( '=' | '<>' ) rels }
    Choice(&[(&[Equal], T(Equal)), (&[NotEqual], T(NotEqual))]),
    Each(&[P(Production::EqOperator), R(Rule::Rels)]),
    Repeated(&[Equal, NotEqual], P(Production::EqStep)),
    Each(&[R(Rule::Rels), P(Production::EqSteps)]),
];

/// The productions of logical operators, those of `Production` in order.
pub(crate) static LOGIC_ROWS: [Row; 12] = [
    // ands := eqs { 'and' eqs }
    Each(&[T(And), R(Rule::Eqs)]),
    Repeated(&[And], P(Production::AndStep)),
    Each(&[R(Rule::Eqs), P(Production::AndSteps)]),
    // ors := ands { 'or' ands }
    Each(&[T(Or), R(Rule::Ands)]),
    Repeated(&[Or], P(Production::OrStep)),
    Each(&[R(Rule::Ands), P(Production::OrSteps)]),
    // xors := ors { 'xor' ors }
    Each(&[T(Xor), R(Rule::Ors)]),
    Repeated(&[Xor], P(Production::XorStep)),
    Each(&[R(Rule::Ors), P(Production::XorSteps)]),
    // expr := xors { 'implies' xors }
    Each(&[T(Implies), R(Rule::Xors)]),
    Repeated(&[Implies], P(Production::ImpliesStep)),
    Each(&[R(Rule::Xors), P(Production::ImpliesSteps)]),
];
