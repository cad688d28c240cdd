/// A production with a name, by which others refer to it: those of a rule have its name.
#[derive(Clone, Copy, Debug, PartialEq, Eq)]
pub(crate) enum Production {
    // nothing at all
    Nothing,
    // NAME: a name or a command word
    Name,
    // names := NAME { ',' NAME }
    MoreName,
    MoreNames,
    Names,
    // 'Set' | 'OrderedSet' | 'Bag' | 'Sequence'
    Kind,
    // type := NAME | kind '(' type ')'
    CollectionType,
    Type,
    // [ ':' type ]
    TypeMark,
    OptionalTypeMark,
    // item := expr [ ':' type [ '=' expr ] ]
    ItemStart,
    OptionalItemStart,
    ItemType,
    OptionalItemType,
    Item,
    // args := '(' [ item { ',' item } [ ';' item ] [ '|' expr ] ] ')'
    MoreItem,
    MoreItems,
    LastItem,
    OptionalLastItem,
    Body,
    OptionalBody,
    Items,
    OptionalItems,
    Args,
    OptionalArgs,
    // part := expr [ '..' expr ]
    PartEnd,
    OptionalPartEnd,
    Part,
    // collection := kind '{' [ part { ',' part } ] '}'
    MorePart,
    MoreParts,
    Parts,
    OptionalParts,
    Collection,
    // named := NAME [ '::' NAME ] [ '@pre' ] [ args ]
    Member,
    OptionalMember,
    OptionalAtPre,
    Named,
    // literal := '#' NAME
    Literal,
    // group := '(' expr ')'
    Group,
    // choice := 'if' expr 'then' expr 'else' expr 'endif'
    Choice,
    // primary := INT | STRING | 'true' | 'false' | 'null' | 'Undefined' | 'invalid' | literal | collection | named | group | choice
    Primary,
    // dot := '.' ( NAME [ '@pre' ] [ args ] | ( 'div' | 'mod' ) args )
    Property,
    DottedDiv,
    DottedMod,
    DotMember,
    Dot,
    // arrow := '->' NAME [ args ]
    Arrow,
    // postfix := primary { dot | arrow }
    PostfixStep,
    PostfixSteps,
    Postfix,
    // bind := NAME [ ':' type ] '=' expr
    Bind,
    // let := 'let' bind { ',' bind } 'in' expr
    MoreBind,
    MoreBinds,
    Let,
    // unary := ( 'not' | '-' ) unary | let | postfix
    Not,
    Negative,
    Unary,
    // muls := unary { ( '*' | 'div' | 'mod' ) unary }
    MulOperator,
    MulStep,
    MulSteps,
    Muls,
    // sums := muls { ( '+' | '-' ) muls }
    SumOperator,
    SumStep,
    SumSteps,
    Sums,
    // rels := sums { ( '<' | '<=' | '>' | '>=' ) sums }
    RelOperator,
    RelStep,
    RelSteps,
    Rels,
    // eqs := rels { ( '=' | '<>' ) rels }
    EqOperator,
    EqStep,
    EqSteps,
    Eqs,
    // ands := eqs { 'and' eqs }
    AndStep,
    AndSteps,
    Ands,
    // ors := ands { 'or' ands }
    OrStep,
    OrSteps,
    Ors,
    // xors := ors { 'xor' ors }
    XorStep,
    XorSteps,
    Xors,
    // expr := xors { 'implies' xors }
    ImpliesStep,
    ImpliesSteps,
    Expr,
    // block := [ stmt ] { ';' [ stmt ] }
    OptionalStmt,
    MoreStmt,
    MoreStmts,
    Block,
    // new := 'new' NAME [ '(' [ expr ] ')' ]
    OptionalExpr,
    NewName,
    OptionalNewName,
    New,
    // rhs := new | expr
    Rhs,
    // create := 'create' names ':' NAME
    Create,
    // set := 'set' expr ':=' rhs
    Set,
    // destroy := 'destroy' expr { ',' expr }
    MoreExpr,
    MoreExprs,
    Destroy,
    // insert := 'insert' '(' expr ',' expr ')' 'into' NAME
    Pair,
    Insert,
    // delete := 'delete' '(' expr ',' expr ')' 'from' NAME
    Delete,
    // declare := 'declare' names ':' type
    Declare,
    // branch := 'if' expr 'then' block [ 'else' block ] 'end'
    ElseBlock,
    OptionalElse,
    Branch,
    // for := 'for' NAME 'in' expr 'do' block 'end'
    LoopBody,
    For,
    // while := 'while' expr 'do' block 'end'
    While,
    // assign := expr [ ':=' rhs ]
    NewValue,
    OptionalNewValue,
    Assign,
    // stmt := create | set | new | destroy | insert | delete | declare | branch | for | while | assign
    Stmt,
    // enter := 'openter' expr NAME args
    Enter,
    // exit := 'opexit' [ expr ]
    Exit,
    // execute := '!' ( enter | exit | block )
    Executed,
    Execute,
    // query := '?' [ '?' ] expr
    OptionalQuestion,
    Query,
    // check := 'check' [ '-' NAME ]
    Option,
    OptionalOption,
    Check,
    // info := 'info' ( 'class' NAME | 'model' | NAME )
    ClassName,
    Subject,
    Info,
    // view := 'view' ( INT | NAME INT )
    NamedView,
    Viewed,
    View,
    // command := [ execute | enter | exit | query | check | info | view | 'undo' | 'redo' | 'reset' | 'quit' | 'exit' ] End
    OptionalCommand,
    Command,
    // [ ';' ]
    OptionalSemicolon,
    // enum := 'enum' NAME '{' names '}' [ ';' ]
    Enum,
    // params := NAME ':' type { ',' NAME ':' type }
    Param,
    MoreParam,
    MoreParams,
    Params,
    OptionalParams,
    // head := NAME '(' [ params ] ')' [ ':' type ]
    Head,
    // cond := ( 'pre' | 'post' ) [ NAME ] ':' expr
    CondKind,
    OptionalName,
    Cond,
    Conds,
    // inv := 'inv' [ NAME ] ':' expr
    Inv,
    Invs,
    // oper := head [ '=' expr | 'begin' block 'end' ] [ ';' ] { cond }
    Value,
    Statements,
    OptionalOperBody,
    Oper,
    // attribute := NAME ':' type [ '=' expr ] [ ';' ]
    OptionalValue,
    Attribute,
    // parents := '<' names
    Parents,
    OptionalParents,
    // class := [ 'abstract' ] 'class' NAME [ parents ] [ 'attributes' { attribute } ] [ 'operations' { oper } ] [ 'constraints' { inv } ] 'end'
    OptionalAbstract,
    Attributes,
    AttributesPart,
    OptionalAttributes,
    Opers,
    OpersPart,
    OptionalOpers,
    InvsPart,
    OptionalInvs,
    Class,
    // mult := '*' | INT [ '..' ( INT | '*' ) ]
    Upper,
    UpperPart,
    OptionalUpper,
    Range,
    Mult,
    // assocend := NAME '[' mult { ',' mult } ']' [ 'role' NAME ] [ 'ordered' ] [ ';' ]
    MoreMult,
    MoreMults,
    RoleName,
    OptionalRole,
    OptionalOrdered,
    AssocEnd,
    // assoc := ( 'association' | 'aggregation' | 'composition' ) NAME 'between' assocend assocend 'end'
    AssocKind,
    Assoc,
    // context := 'context' NAME ( ':' NAME inv { inv } | '::' head cond { cond } | inv { inv } )
    SomeInvs,
    VariableContext,
    OperContext,
    ContextRest,
    Context,
    // constraints := 'constraints' { context }
    Contexts,
    Constraints,
    // file := 'model' NAME { enum | class | assoc | constraints } End
    FileItem,
    FileItems,
    File,
}

impl Production {
    ghost use Rattle.std.specs.Prelude.{◌≡◌, ◌<◌};
    ghost use Rattle.use_syntax.specs.Numbers.{number_of_production};

    pub(crate) fn number(self) -> u16
        ensures is { result ≡ number_of_production self }
        ensures small { result < 185 }
    {
        self as u16
    }
}
