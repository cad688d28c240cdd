use std::alloc::{AllocError, Global};
use std::test::Fail;
use use_nodes::*;
use use_syntax::{Parsed, Rule, grammar, read_command, read_model};
use use_text::{Place, TokenKind};

mod rows;

use rows::{COMMANDS, EXPRESSIONS, MODELS, Row, STATEMENTS, TYPES};

// The parts of a node of names and types.
fn parts_of_types(alloc: Global, node: &NodeRef<'_>, rule: Rule) -> Result<String, AllocError> {
    match rule {
        Rule::Names => format!(in alloc; "{:?}", NamesNode::of(node)),
        Rule::Type => format!(in alloc; "{:?}", TypeNode::of(node)),
        _ => String::from_str(alloc, ""),
    }
}

// The parts of a node of expressions.
fn parts_of_expressions(
    alloc: Global,
    node: &NodeRef<'_>,
    rule: Rule,
) -> Result<String, AllocError> {
    match rule {
        Rule::Item => format!(in alloc; "{:?}", ItemNode::of(node)),
        Rule::Args => format!(in alloc; "{:?}", ArgsNode::of(node)),
        Rule::Part => format!(in alloc; "{:?}", PartNode::of(node)),
        Rule::Collection => format!(in alloc; "{:?}", CollectionNode::of(node)),
        Rule::Named => format!(in alloc; "{:?}", NamedNode::of(node)),
        Rule::Literal => format!(in alloc; "{:?}", LiteralNode::of(node)),
        Rule::Group => format!(in alloc; "{:?}", GroupNode::of(node)),
        Rule::Choice => format!(in alloc; "{:?}", ChoiceNode::of(node)),
        Rule::Primary => format!(in alloc; "{:?}", PrimaryNode::of(node)),
        Rule::Dot => format!(in alloc; "{:?}", DotNode::of(node)),
        Rule::Arrow => format!(in alloc; "{:?}", ArrowNode::of(node)),
        Rule::Postfix => format!(in alloc; "{:?}", PostfixNode::of(node)),
        Rule::Bind => format!(in alloc; "{:?}", BindNode::of(node)),
        Rule::Let => format!(in alloc; "{:?}", LetNode::of(node)),
        Rule::Unary => format!(in alloc; "{:?}", UnaryNode::of(node)),
        _ => format!(in alloc; "{:?}", ChainNode::of(node)),
    }
}

// The parts of a node of statements.
fn parts_of_statements(
    alloc: Global,
    node: &NodeRef<'_>,
    rule: Rule,
) -> Result<String, AllocError> {
    match rule {
        Rule::Block => format!(in alloc; "{:?}", BlockNode::of(node)),
        Rule::New => format!(in alloc; "{:?}", NewNode::of(node)),
        Rule::Rhs => format!(in alloc; "{:?}", RhsNode::of(node)),
        Rule::Create => format!(in alloc; "{:?}", CreateNode::of(node)),
        Rule::Set => format!(in alloc; "{:?}", SetNode::of(node)),
        Rule::Destroy => format!(in alloc; "{:?}", DestroyNode::of(node)),
        Rule::Insert => format!(in alloc; "{:?}", InsertNode::of(node)),
        Rule::Delete => format!(in alloc; "{:?}", DeleteNode::of(node)),
        Rule::Declare => format!(in alloc; "{:?}", DeclareNode::of(node)),
        Rule::Branch => format!(in alloc; "{:?}", BranchNode::of(node)),
        Rule::For => format!(in alloc; "{:?}", ForNode::of(node)),
        Rule::While => format!(in alloc; "{:?}", WhileNode::of(node)),
        Rule::Assign => format!(in alloc; "{:?}", AssignNode::of(node)),
        Rule::Stmt => format!(in alloc; "{:?}", StmtNode::of(node)),
        _ => String::from_str(alloc, ""),
    }
}

// The parts of a node of commands.
fn parts_of_commands(alloc: Global, node: &NodeRef<'_>, rule: Rule) -> Result<String, AllocError> {
    match rule {
        Rule::Enter => format!(in alloc; "{:?}", EnterNode::of(node)),
        Rule::Exit => format!(in alloc; "{:?}", ExitNode::of(node)),
        Rule::Execute => format!(in alloc; "{:?}", ExecuteNode::of(node)),
        Rule::Query => format!(in alloc; "{:?}", QueryNode::of(node)),
        Rule::Check => format!(in alloc; "{:?}", CheckNode::of(node)),
        Rule::Info => format!(in alloc; "{:?}", InfoNode::of(node)),
        Rule::View => format!(in alloc; "{:?}", ViewNode::of(node)),
        Rule::Command => format!(in alloc; "{:?}", CommandNode::of(node)),
        _ => String::from_str(alloc, ""),
    }
}

// The parts of a node of models.
fn parts_of_models(alloc: Global, node: &NodeRef<'_>, rule: Rule) -> Result<String, AllocError> {
    match rule {
        Rule::Enum => format!(in alloc; "{:?}", EnumNode::of(node)),
        Rule::Param => format!(in alloc; "{:?}", ParamNode::of(node)),
        Rule::Params => format!(in alloc; "{:?}", ParamsNode::of(node)),
        Rule::Head => format!(in alloc; "{:?}", HeadNode::of(node)),
        Rule::Cond => format!(in alloc; "{:?}", CondNode::of(node)),
        Rule::Inv => format!(in alloc; "{:?}", InvNode::of(node)),
        Rule::Oper => format!(in alloc; "{:?}", OperNode::of(node)),
        Rule::Attribute => format!(in alloc; "{:?}", AttributeNode::of(node)),
        Rule::Parents => format!(in alloc; "{:?}", ParentsNode::of(node)),
        Rule::Class => format!(in alloc; "{:?}", ClassNode::of(node)),
        Rule::Mult => format!(in alloc; "{:?}", MultNode::of(node)),
        Rule::AssocEnd => format!(in alloc; "{:?}", AssocEndNode::of(node)),
        Rule::Assoc => format!(in alloc; "{:?}", AssocNode::of(node)),
        Rule::Context => format!(in alloc; "{:?}", ContextNode::of(node)),
        Rule::Constraints => format!(in alloc; "{:?}", ConstraintsNode::of(node)),
        Rule::File => format!(in alloc; "{:?}", FileNode::of(node)),
        _ => String::from_str(alloc, ""),
    }
}

// The node below, by the first one of each rule.
fn below<'a>(node: &NodeRef<'a>, path: &[Rule]) -> Option<NodeRef<'a>> {
    let mut node = node.copy();
    'rules: for rule in path {
        node = node.part(Select::Rule(*rule))?;
    }
    Some(node)
}

fn parts_of(
    alloc: Global,
    family: Family,
    node: &NodeRef<'_>,
    rule: Rule,
) -> Result<String, AllocError> {
    match family {
        Family::Types => parts_of_types(alloc, node, rule),
        Family::Expressions => parts_of_expressions(alloc, node, rule),
        Family::Statements => parts_of_statements(alloc, node, rule),
        Family::Commands => parts_of_commands(alloc, node, rule),
        Family::Models => parts_of_models(alloc, node, rule),
    }
}

// The families of nodes.
#[derive(Clone, Copy, PartialEq, Eq)]
enum Family {
    Types,
    Expressions,
    Statements,
    Commands,
    Models,
}

fn read(alloc: Global, family: Family, text: &str) -> Result<Option<Parsed>, Fail> {
    let g = grammar(alloc)?;
    if text.len() > 1000 {
        return Ok(None);
    }
    let read = if family == Family::Models {
        read_model(alloc, &g, text.as_bytes())
    } else {
        read_command(alloc, &g, text.as_bytes(), 1)
    };
    Ok(read.ok())
}

// The parts of the node of a row.
fn shown(alloc: Global, family: Family, row: &Row) -> Result<String, Fail> {
    let Some(parsed) = read(alloc, family, row.text)? else {
        return Ok(String::from_str(alloc, "refused")?);
    };
    let Some(start) = below(&NodeRef::root(&parsed.tree), row.front) else {
        return Ok(String::from_str(alloc, "absent")?);
    };
    let Some(node) = below(&start, row.path) else {
        return Ok(String::from_str(alloc, "absent")?);
    };
    Ok(parts_of(alloc, family, &node, row.rule)?)
}

// The first row whose node has other parts.
fn first_other(alloc: Global, family: Family, rows: &'static [Row]) -> Result<Option<Row>, Fail> {
    'rows: for row in rows {
        if shown(alloc, family, row)?.as_str() != row.want {
            return Ok(Some(*row));
        }
    }
    Ok(None)
}

#[test]
fn nodes_of_types_have_their_parts(rt: HostRuntime) -> Result<(), Fail> {
    assert!(rt; first_other(rt.alloc(), Family::Types, TYPES)?.is_none());
    Ok(())
}

#[test]
fn nodes_of_expressions_have_their_parts(rt: HostRuntime) -> Result<(), Fail> {
    assert!(rt; first_other(rt.alloc(), Family::Expressions, EXPRESSIONS)?.is_none());
    Ok(())
}

#[test]
fn nodes_of_statements_have_their_parts(rt: HostRuntime) -> Result<(), Fail> {
    assert!(rt; first_other(rt.alloc(), Family::Statements, STATEMENTS)?.is_none());
    Ok(())
}

#[test]
fn nodes_of_commands_have_their_parts(rt: HostRuntime) -> Result<(), Fail> {
    assert!(rt; first_other(rt.alloc(), Family::Commands, COMMANDS)?.is_none());
    Ok(())
}

#[test]
fn nodes_of_models_have_their_parts(rt: HostRuntime) -> Result<(), Fail> {
    assert!(rt; first_other(rt.alloc(), Family::Models, MODELS)?.is_none());
    Ok(())
}

// Whether the query of `? 1 + 2` is told by its question mark.
fn is_query(parsed: &Parsed) -> Option<bool> {
    let root = NodeRef::root(&parsed.tree);
    let query = root.child(0)?;
    let mark = query.child(0)?;
    let token = mark.token_in(parsed.tokens.as_slice())?;
    Some(
        root.is_node()
            && root.is_rule(Rule::Command)
            && root.len() == 2
            && query.has(TokenKind::Question)
            && mark.is_token(TokenKind::Question)
            && mark.token()? == 0
            && token.end == 1,
    )
}

// Whether the sum of `? 1 + 2` has two operands and one `+`.
fn is_sum(parsed: &Parsed) -> Option<bool> {
    let query = NodeRef::root(&parsed.tree).child(0)?;
    let expression = query.second_but(TokenKind::Question)?;
    let rules = &[
        Rule::Xors,
        Rule::Ors,
        Rule::Ands,
        Rule::Eqs,
        Rule::Rels,
        Rule::Sums,
    ];
    let sums = expression.through(rules)?;
    let mut operands = sums.parts(Select::Rule(Rule::Muls));
    operands.next()?;
    operands.next()?;
    Some(
        expression.alone(Rule::Sums).is_none()
            && operands.next().is_none()
            && sums.behind(TokenKind::Plus)?.is_rule(Rule::Muls)
            && sums.second(TokenKind::Plus).is_none(),
    )
}

#[test]
fn nodes_are_told_by_rule_token_and_place(rt: HostRuntime) -> Result<(), Fail> {
    let alloc = rt.alloc();
    if let Some(parsed) = read(alloc, Family::Commands, "? 1 + 2")? {
        assert_eq!(rt; is_query(&parsed), Some(true));
        assert_eq!(rt; is_sum(&parsed), Some(true));
        assert_eq!(rt;
            place_of_first(7, parsed.tokens.as_slice()),
            Place { line: 1, col: 1 }
        );
    }
    assert_eq!(rt; place_of_first(7, &[]), Place { line: 7, col: 1 });
    Ok(())
}
