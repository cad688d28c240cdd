use crate::Rule;
use crate::firsts::NAMES;
use crate::production::Production;
use crate::row::Row;
use crate::row::Row::{Choice, Each, Optional, OrElse, Repeated};
use crate::row::Symbol::{Production as P, Rule as R, Token as T};
use use_text::TokenKind::{
    Abstract, Aggregation, Association, Attributes, Begin, Between, Class, Colon, Comma,
    Composition, Constraints, Context, DoubleColon, DoubleDot, End, EndWord, Enum, Equal, Int, Inv,
    LeftBrace, LeftBracket, LeftParen, Less, Model, Operations, Ordered, Post, Pre, RightBrace,
    RightBracket, RightParen, Role, Semicolon, Star,
};

/// The productions of enumerations and heads of operations, those of `Production` in order.
pub(crate) static HEAD_ROWS: [Row; 8] = [
    // [ ';' ]
    Optional(&[Semicolon], T(Semicolon)),
    // enum := 'enum' NAME '{' names '}' [ ';' ]
    Each(&[
        T(Enum),
        P(Production::Name),
        T(LeftBrace),
        R(Rule::Names),
        T(RightBrace),
        P(Production::OptionalSemicolon),
    ]),
    // params := NAME ':' type { ',' NAME ':' type }
    Each(&[P(Production::Name), P(Production::TypeMark)]),
    Each(&[T(Comma), R(Rule::Param)]),
    Repeated(&[Comma], P(Production::MoreParam)),
    Each(&[R(Rule::Param), P(Production::MoreParams)]),
    Optional(NAMES, R(Rule::Params)),
    // head := NAME '(' [ params ] ')' [ ':' type ]
    Each(&[
        P(Production::Name),
        T(LeftParen),
        P(Production::OptionalParams),
        T(RightParen),
        P(Production::OptionalTypeMark),
    ]),
];

/// The productions of conditions and operations, those of `Production` in order.
pub(crate) static OPER_ROWS: [Row; 10] = [
    // cond := ( 'pre' | 'post' ) [ NAME ] ':' expr
    Choice(&[(&[Pre], T(Pre)), (&[Post], T(Post))]),
    Optional(NAMES, P(Production::Name)),
    Each(&[
        P(Production::CondKind),
        P(Production::OptionalName),
        T(Colon),
        R(Rule::Expr),
    ]),
    Repeated(&[Pre, Post], R(Rule::Cond)),
    // inv := 'inv' [ NAME ] ':' expr
    Each(&[T(Inv), P(Production::OptionalName), T(Colon), R(Rule::Expr)]),
    Repeated(&[Inv], R(Rule::Inv)),
    // oper := head [ '=' expr | 'begin' block 'end' ] [ ';' ] { cond }
    Each(&[T(Equal), R(Rule::Expr)]),
    Each(&[T(Begin), R(Rule::Block), T(EndWord)]),
    OrElse(
        &[
            (&[Equal], P(Production::Value)),
            (&[Begin], P(Production::Statements)),
        ],
        P(Production::Nothing),
    ),
    Each(&[
        R(Rule::Head),
        P(Production::OptionalOperBody),
        P(Production::OptionalSemicolon),
        P(Production::Conds),
    ]),
];

/// The productions of classes, those of `Production` in order.
pub(crate) static CLASS_ROWS: [Row; 14] = [
    // attribute := NAME ':' type [ '=' expr ] [ ';' ]
    Optional(&[Equal], P(Production::Value)),
    Each(&[
        P(Production::Name),
        P(Production::TypeMark),
        P(Production::OptionalValue),
        P(Production::OptionalSemicolon),
    ]),
    // parents := '<' names
    Each(&[T(Less), R(Rule::Names)]),
    Optional(&[Less], R(Rule::Parents)),
    // class := [ 'abstract' ] 'class' NAME [ parents ] [ 'attributes' { attribute } ] [ 'operations' { oper } ] [ 'constraints' { inv } ] 'end'
    Optional(&[Abstract], T(Abstract)),
    Repeated(NAMES, R(Rule::Attribute)),
    Each(&[T(Attributes), P(Production::Attributes)]),
    Optional(&[Attributes], P(Production::AttributesPart)),
    Repeated(NAMES, R(Rule::Oper)),
    Each(&[T(Operations), P(Production::Opers)]),
    Optional(&[Operations], P(Production::OpersPart)),
    Each(&[T(Constraints), P(Production::Invs)]),
    Optional(&[Constraints], P(Production::InvsPart)),
    Each(&[
        P(Production::OptionalAbstract),
        T(Class),
        P(Production::Name),
        P(Production::OptionalParents),
        P(Production::OptionalAttributes),
        P(Production::OptionalOpers),
        P(Production::OptionalInvs),
        T(EndWord),
    ]),
];

/// The productions of ends of associations, those of `Production` in order.
pub(crate) static END_ROWS: [Row; 11] = [
    // mult := '*' | INT [ '..' ( INT | '*' ) ]
    Choice(&[(&[Int], T(Int)), (&[Star], T(Star))]),
    Each(&[T(DoubleDot), P(Production::Upper)]),
    Optional(&[DoubleDot], P(Production::UpperPart)),
    Each(&[T(Int), P(Production::OptionalUpper)]),
    Choice(&[(&[Star], T(Star)), (&[Int], P(Production::Range))]),
    // assocend := NAME '[' mult { ',' mult } ']' [ 'role' NAME ] [ 'ordered' ] [ ';' ]
    Each(&[T(Comma), R(Rule::Mult)]),
    Repeated(&[Comma], P(Production::MoreMult)),
    Each(&[T(Role), P(Production::Name)]),
    Optional(&[Role], P(Production::RoleName)),
    Optional(&[Ordered], T(Ordered)),
    Each(&[
        P(Production::Name),
        T(LeftBracket),
        R(Rule::Mult),
        P(Production::MoreMults),
        T(RightBracket),
        P(Production::OptionalRole),
        P(Production::OptionalOrdered),
        P(Production::OptionalSemicolon),
    ]),
];

/// The productions of associations, those of `Production` in order.
pub(crate) static ASSOC_ROWS: [Row; 2] = [
    // assoc := ( 'association' | 'aggregation' | 'composition' ) NAME 'between' assocend assocend 'end'
    Choice(&[
        (&[Association], T(Association)),
        (&[Aggregation], T(Aggregation)),
        (&[Composition], T(Composition)),
    ]),
    Each(&[
        P(Production::AssocKind),
        P(Production::Name),
        T(Between),
        R(Rule::AssocEnd),
        R(Rule::AssocEnd),
        T(EndWord),
    ]),
];

/// The productions of contexts of constraints, those of `Production` in order.
pub(crate) static CONTEXT_ROWS: [Row; 7] = [
    // context := 'context' NAME ( ':' NAME inv { inv } | '::' head cond { cond } | inv { inv } )
    Each(&[R(Rule::Inv), P(Production::Invs)]),
    Each(&[T(Colon), P(Production::Name), P(Production::SomeInvs)]),
    Each(&[
        T(DoubleColon),
        R(Rule::Head),
        R(Rule::Cond),
        P(Production::Conds),
    ]),
    Choice(&[
        (&[Colon], P(Production::VariableContext)),
        (&[DoubleColon], P(Production::OperContext)),
        (&[Inv], P(Production::SomeInvs)),
    ]),
    Each(&[T(Context), P(Production::Name), P(Production::ContextRest)]),
    // constraints := 'constraints' { context }
    Repeated(&[Context], R(Rule::Context)),
    Each(&[T(Constraints), P(Production::Contexts)]),
];

/// The productions of a whole model, those of `Production` in order.
pub(crate) static FILE_ROWS: [Row; 3] = [
    // file := 'model' NAME { enum | class | assoc | constraints } End
    Choice(&[
        (&[Enum], R(Rule::Enum)),
        (&[Abstract, Class], R(Rule::Class)),
        (&[Association, Aggregation, Composition], R(Rule::Assoc)),
        (&[Constraints], R(Rule::Constraints)),
    ]),
    Repeated(
        &[
            Enum,
            Abstract,
            Class,
            Association,
            Aggregation,
            Composition,
            Constraints,
        ],
        P(Production::FileItem),
    ),
    Each(&[
        T(Model),
        P(Production::Name),
        P(Production::FileItems),
        T(End),
    ]),
];
