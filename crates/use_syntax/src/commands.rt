use crate::Rule;
use crate::firsts::NAMES;
use crate::production::Production;
use crate::row::Row;
use crate::row::Row::{Choice, Each, Optional, OrElse};
use crate::row::Symbol::{Production as P, Rule as R, Token as T};
use use_text::TokenKind::{
    Bang, Check, Class, End, Exit, Info, Int, Minus, Model, Openter, Opexit, Question, Quit, Redo,
    Reset, Undo, View,
};

/// The productions of operations, statements, queries and checks, those of `Production` in order.
pub(crate) static QUERY_ROWS: [Row; 9] = [
    // enter := 'openter' expr NAME args
    Each(&[
        T(Openter),
        R(Rule::Expr),
        P(Production::Name),
        R(Rule::Args),
    ]),
    // exit := 'opexit' [ expr ]
    Each(&[T(Opexit), P(Production::OptionalExpr)]),
    // execute := '!' ( enter | exit | block )
    OrElse(
        &[(&[Openter], R(Rule::Enter)), (&[Opexit], R(Rule::Exit))],
        R(Rule::Block),
    ),
    Each(&[T(Bang), P(Production::Executed)]),
    // query := '?' [ '?' ] expr
    Optional(&[Question], T(Question)),
    Each(&[T(Question), P(Production::OptionalQuestion), R(Rule::Expr)]),
    // check := 'check' [ '-' NAME ]
    Each(&[T(Minus), P(Production::Name)]),
    Optional(&[Minus], P(Production::Option)),
    Each(&[T(Check), P(Production::OptionalOption)]),
];

/// The productions of reports, those of `Production` in order.
pub(crate) static REPORT_ROWS: [Row; 6] = [
    // info := 'info' ( 'class' NAME | 'model' | NAME )
    Each(&[T(Class), P(Production::Name)]),
    Choice(&[
        (&[Class], P(Production::ClassName)),
        (&[Model], T(Model)),
        (NAMES, P(Production::Name)),
    ]),
    Each(&[T(Info), P(Production::Subject)]),
    // view := 'view' ( INT | NAME INT )
    Each(&[P(Production::Name), T(Int)]),
    Choice(&[(&[Int], T(Int)), (NAMES, P(Production::NamedView))]),
    Each(&[T(View), P(Production::Viewed)]),
];

/// The productions of any command, those of `Production` in order.
pub(crate) static COMMAND_ROWS: [Row; 2] = [
    // command := [ execute | enter | exit | query | check | info | view | 'undo' | 'redo' | 'reset' | 'quit' | 'exit' ] End
    OrElse(
        &[
            (&[Bang], R(Rule::Execute)),
            (&[Openter], R(Rule::Enter)),
            (&[Opexit], R(Rule::Exit)),
            (&[Question], R(Rule::Query)),
            (&[Check], R(Rule::Check)),
            (&[Info], R(Rule::Info)),
            (&[View], R(Rule::View)),
            (&[Undo], T(Undo)),
            (&[Redo], T(Redo)),
            (&[Reset], T(Reset)),
            (&[Quit], T(Quit)),
            (&[Exit], T(Exit)),
        ],
        P(Production::Nothing),
    ),
    Each(&[P(Production::OptionalCommand), T(End)]),
];
