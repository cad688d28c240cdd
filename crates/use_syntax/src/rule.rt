/// A rule of the language, beside its productions: brackets mean optional, braces any number.
#[derive(Clone, Copy, Debug, PartialEq, Eq)]
pub enum Rule {
    /// `file := 'model' NAME { enum | class | assoc | constraints } End`
    File,
    /// `command := [ execute | enter | exit | query | check | info | view | 'undo' | 'redo' | 'reset' | 'quit' | 'exit' ] End`
    Command,
    /// `names := NAME { ',' NAME }`
    Names,
    /// `type := NAME | kind '(' type ')'`
    Type,
    /// `item := expr [ ':' type [ '=' expr ] ]`
    Item,
    /// `args := '(' [ item { ',' item } [ ';' item ] [ '|' expr ] ] ')'`
    Args,
    /// `part := expr [ '..' expr ]`
    Part,
    /// `collection := kind '{' [ part { ',' part } ] '}'`
    Collection,
    /// `named := NAME [ '::' NAME ] [ '@pre' ] [ args ]`
    Named,
    /// `literal := '#' NAME`
    Literal,
    /// `group := '(' expr ')'`
    Group,
    /// `choice := 'if' expr 'then' expr 'else' expr 'endif'`
    Choice,
    /// `primary := INT | STRING | 'true' | 'false' | 'null' | 'Undefined' | 'invalid' | literal | collection | named | group | choice`
    Primary,
    /// `dot := '.' ( NAME [ '@pre' ] [ args ] | ( 'div' | 'mod' ) args )`
    Dot,
    /// `arrow := '->' NAME [ args ]`
    Arrow,
    /// `postfix := primary { dot | arrow }`
    Postfix,
    /// `bind := NAME [ ':' type ] '=' expr`
    Bind,
    /// `let := 'let' bind { ',' bind } 'in' expr`
    Let,
    /// `unary := ( 'not' | '-' ) unary | let | postfix`
    Unary,
    /// `muls := unary { ( '*' | 'div' | 'mod' ) unary }`
    Muls,
    /// `sums := muls { ( '+' | '-' ) muls }`
    Sums,
    /// `rels := sums { ( '<' | '<=' | '>' | '>=' ) sums }`
    Rels,
    /// `eqs := rels { ( '=' | '<>' ) rels }`
    Eqs,
    /// `ands := eqs { 'and' eqs }`
    Ands,
    /// `ors := ands { 'or' ands }`
    Ors,
    /// `xors := ors { 'xor' ors }`
    Xors,
    /// `expr := xors { 'implies' xors }`
    Expr,
    /// `block := [ stmt ] { ';' [ stmt ] }`
    Block,
    /// `new := 'new' NAME [ '(' [ expr ] ')' ]`
    New,
    /// `rhs := new | expr`
    Rhs,
    /// `create := 'create' names ':' NAME`
    Create,
    /// `set := 'set' expr ':=' rhs`
    Set,
    /// `destroy := 'destroy' expr { ',' expr }`
    Destroy,
    /// `insert := 'insert' '(' expr ',' expr ')' 'into' NAME`
    Insert,
    /// `delete := 'delete' '(' expr ',' expr ')' 'from' NAME`
    Delete,
    /// `declare := 'declare' names ':' type`
    Declare,
    /// `branch := 'if' expr 'then' block [ 'else' block ] 'end'`
    Branch,
    /// `for := 'for' NAME 'in' expr 'do' block 'end'`
    For,
    /// `while := 'while' expr 'do' block 'end'`
    While,
    /// `assign := expr [ ':=' rhs ]`
    Assign,
    /// `stmt := create | set | new | destroy | insert | delete | declare | branch | for | while | assign`
    Stmt,
    /// `enter := 'openter' expr NAME args`
    Enter,
    /// `exit := 'opexit' [ expr ]`
    Exit,
    /// `execute := '!' ( enter | exit | block )`
    Execute,
    /// `query := '?' [ '?' ] expr`
    Query,
    /// `check := 'check' [ '-' NAME ]`
    Check,
    /// `info := 'info' ( 'class' NAME | 'model' | NAME )`
    Info,
    /// `view := 'view' ( INT | NAME INT )`
    View,
    /// `enum := 'enum' NAME '{' names '}' [ ';' ]`
    Enum,
    /// `params := NAME ':' type { ',' NAME ':' type }`
    Param,
    /// `params := NAME ':' type { ',' NAME ':' type }`
    Params,
    /// `head := NAME '(' [ params ] ')' [ ':' type ]`
    Head,
    /// `cond := ( 'pre' | 'post' ) [ NAME ] ':' expr`
    Cond,
    /// `inv := 'inv' [ NAME ] ':' expr`
    Inv,
    /// `oper := head [ '=' expr | 'begin' block 'end' ] [ ';' ] { cond }`
    Oper,
    /// `attribute := NAME ':' type [ '=' expr ] [ ';' ]`
    Attribute,
    /// `parents := '<' names`
    Parents,
    /// `class := [ 'abstract' ] 'class' NAME [ parents ] [ 'attributes' { attribute } ] [ 'operations' { oper } ] [ 'constraints' { inv } ] 'end'`
    Class,
    /// `mult := '*' | INT [ '..' ( INT | '*' ) ]`
    Mult,
    /// `assocend := NAME '[' mult { ',' mult } ']' [ 'role' NAME ] [ 'ordered' ] [ ';' ]`
    AssocEnd,
    /// `assoc := ( 'association' | 'aggregation' | 'composition' ) NAME 'between' assocend assocend 'end'`
    Assoc,
    /// `context := 'context' NAME ( ':' NAME inv { inv } | '::' head cond { cond } | inv { inv } )`
    Context,
    /// `constraints := 'constraints' { context }`
    Constraints,
}

impl Rule {
    ghost use Rattle.std.specs.Prelude.{◌≡◌, ◌<◌};
    ghost use Rattle.use_syntax.specs.Numbers.{number_of_rule};

    /// The number that a tree names the rule by.
    pub fn number(self) -> u16
        ensures is { result ≡ number_of_rule self }
        ensures small { result < 63 }
    {
        self as u16
    }
}
