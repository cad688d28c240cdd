use crate::Rule;
use crate::firsts::{EXPRESSIONS, STATEMENTS};
use crate::production::Production;
use crate::row::Row;
use crate::row::Row::{Each, Optional, OrElse, Repeated};
use crate::row::Symbol::{Production as P, Rule as R, Token as T};
use use_text::TokenKind::{
    Assign, Colon, Comma, Create, Declare, Delete, Destroy, Do, Else, EndWord, For, From, If, In,
    Insert, Into, LeftParen, New, RightParen, Semicolon, SetWord, Then, While,
};

/// The productions of blocks and of new objects, those of `Production` in order.
pub(crate) static BLOCK_ROWS: [Row; 9] = [
    // block := [ stmt ] { ';' [ stmt ] }
    Optional(STATEMENTS, R(Rule::Stmt)),
    Each(&[T(Semicolon), P(Production::OptionalStmt)]),
    Repeated(&[Semicolon], P(Production::MoreStmt)),
    Each(&[P(Production::OptionalStmt), P(Production::MoreStmts)]),
    // new := 'new' NAME [ '(' [ expr ] ')' ]
    Optional(EXPRESSIONS, R(Rule::Expr)),
    Each(&[T(LeftParen), P(Production::OptionalExpr), T(RightParen)]),
    Optional(&[LeftParen], P(Production::NewName)),
    Each(&[T(New), P(Production::Name), P(Production::OptionalNewName)]),
    // rhs := new | expr
    OrElse(&[(&[New], R(Rule::New))], R(Rule::Expr)),
];

/// The productions of changes of a state, those of `Production` in order.
pub(crate) static CHANGE_ROWS: [Row; 9] = [
    // create := 'create' names ':' NAME
    Each(&[T(Create), R(Rule::Names), T(Colon), P(Production::Name)]),
    // set := 'set' expr ':=' rhs
    Each(&[T(SetWord), R(Rule::Expr), T(Assign), R(Rule::Rhs)]),
    // destroy := 'destroy' expr { ',' expr }
    Each(&[T(Comma), R(Rule::Expr)]),
    Repeated(&[Comma], P(Production::MoreExpr)),
    Each(&[T(Destroy), R(Rule::Expr), P(Production::MoreExprs)]),
    // insert := 'insert' '(' expr ',' expr ')' 'into' NAME
    Each(&[
        T(LeftParen),
        R(Rule::Expr),
        T(Comma),
        R(Rule::Expr),
        T(RightParen),
    ]),
    Each(&[T(Insert), P(Production::Pair), T(Into), P(Production::Name)]),
    // delete := 'delete' '(' expr ',' expr ')' 'from' NAME
    Each(&[T(Delete), P(Production::Pair), T(From), P(Production::Name)]),
    // declare := 'declare' names ':' type
    Each(&[T(Declare), R(Rule::Names), P(Production::TypeMark)]),
];

/// The productions of branches and loops, those of `Production` in order.
pub(crate) static CONTROL_ROWS: [Row; 6] = [
    // branch := 'if' expr 'then' block [ 'else' block ] 'end'
    Each(&[T(Else), R(Rule::Block)]),
    Optional(&[Else], P(Production::ElseBlock)),
    Each(&[
        T(If),
        R(Rule::Expr),
        T(Then),
        R(Rule::Block),
        P(Production::OptionalElse),
        T(EndWord),
    ]),
    // for := 'for' NAME 'in' expr 'do' block 'end'
    Each(&[T(Do), R(Rule::Block), T(EndWord)]),
    Each(&[
        T(For),
        P(Production::Name),
        T(In),
        R(Rule::Expr),
        P(Production::LoopBody),
    ]),
    // while := 'while' expr 'do' block 'end'
    Each(&[T(While), R(Rule::Expr), P(Production::LoopBody)]),
];

/// The productions of assignments, and of any statement, those of `Production` in order.
pub(crate) static STATEMENT_ROWS: [Row; 4] = [
    // assign := expr [ ':=' rhs ]
    Each(&[T(Assign), R(Rule::Rhs)]),
    Optional(&[Assign], P(Production::NewValue)),
    Each(&[R(Rule::Expr), P(Production::OptionalNewValue)]),
    // stmt := create | set | new | destroy | insert | delete | declare | branch | for | while | assign
    OrElse(
        &[
            (&[Create], R(Rule::Create)),
            (&[SetWord], R(Rule::Set)),
            (&[New], R(Rule::New)),
            (&[Destroy], R(Rule::Destroy)),
            (&[Insert], R(Rule::Insert)),
            (&[Delete], R(Rule::Delete)),
            (&[Declare], R(Rule::Declare)),
            (&[If], R(Rule::Branch)),
            (&[For], R(Rule::For)),
            (&[While], R(Rule::While)),
        ],
        R(Rule::Assign),
    ),
];
