ghost use Rattle.std.specs.Prelude.{◌≡◌, ◌<◌, ◌^◌, All, IfOk, IfSome, length};
ghost use Rattle.use_syntax.specs.Language.{language};
ghost use Rattle.use_text.specs.Tokens.{IsWithin};

use class_builder::build;
use class_model::{ClassModel, OclType};
use grammar_core::Grammar;
use ocl_rules::{TypeFault, Typed};
use ocl_scope::Environment;
use ocl_syntax::{Written, written};
use ocl_types::type_expr;
use ocl_values::Text;
use std::alloc::{AllocError, Global};
use std::test::Fail;
use use_decls::{Lexed, decls};
use use_nodes::{CommandNode, NodeRef, QueryNode};
use use_syntax::{Parsed, grammar, read_command, read_model};

mod models;
mod rows;
mod scopes;
mod shapes;
mod shown;

use models::{EMPLOYEES, WORK};
use rows::Row;
use shown::shown;

fn language(alloc: Global) -> Result<Option<Grammar>, Fail>
    ensures { IfOk result (λ o. IfSome o (λ g. g ≡ language)) }
{
    match grammar(alloc) {
        Ok(g) => Ok(Some(g)),
        Err(_) => Ok(None),
    }
}

fn model_read(alloc: Global, g: &Grammar, text: &str) -> Result<Option<Parsed>, Fail>
    requires { g.now ≡ language }
    ensures { IfOk result (λ o. IfSome o (λ p. All (IsWithin (length p.text)) p.tokens)) }
{
    if text.len() > 10_000 {
        return Ok(None);
    }
    match read_model(alloc, g, text.as_bytes()) {
        Ok(parsed) => Ok(Some(parsed)),
        Err(_) => Ok(None),
    }
}

fn model_of(alloc: Global, g: &Grammar, text: &str) -> Result<Option<ClassModel>, Fail>
    requires { g.now ≡ language }
{
    match model_read(alloc, g, text)? {
        None => Ok(None),
        Some(parsed) => match build(alloc, decls(alloc, &parsed)?) {
            Ok(model) => Ok(Some(model)),
            Err(_) => Ok(None),
        },
    }
}

fn query_read(alloc: Global, g: &Grammar, text: &str) -> Result<Option<Parsed>, Fail>
    requires { g.now ≡ language }
    ensures { IfOk result (λ o. IfSome o (λ p. All (IsWithin (length p.text)) p.tokens)) }
{
    if text.len() > 10_000 {
        return Ok(None);
    }
    match read_command(alloc, g, text.as_bytes(), 1) {
        Ok(parsed) => Ok(Some(parsed)),
        Err(_) => Ok(None),
    }
}

// The expression that a command asks for.
fn asked<'a>(root: &NodeRef<'a>) -> Option<NodeRef<'a>> {
    let command = CommandNode::of(root)?;
    let query = QueryNode::of(&command.form?)?;
    Some(query.expression)
}

fn written_of(alloc: Global, g: &Grammar, text: &str) -> Result<Option<Written>, Fail>
    requires { g.now ≡ language }
{
    match query_read(alloc, g, text)? {
        None => Ok(None),
        Some(parsed) => match asked(&NodeRef::root(&parsed.tree)) {
            None => Ok(None),
            Some(node) => Ok(Some(written(alloc, &Lexed::of(&parsed), &node)?)),
        },
    }
}

fn type_in(
    alloc: Global,
    model: &ClassModel,
    is_post: bool,
    mut environment: Environment,
    written: &Written,
) -> Result<Typed, TypeFault>
    requires { environment.size < 2 ^ 31 }
{
    type_expr(alloc, model, is_post, &mut environment, written)
}

// The type of what a query asks for, or the rule that it breaks with its place.
fn shown_of(
    alloc: Global,
    g: &Grammar,
    model: &ClassModel,
    is_post: bool,
    text: &str,
) -> Result<String, Fail>
    requires { g.now ≡ language }
{
    match written_of(alloc, g, text)? {
        None => Ok(String::from_str(alloc, "no query")?),
        Some(written) => {
            let typed = type_in(alloc, model, is_post, Environment::new(alloc), &written);
            Ok(shown(alloc, model, &typed)?)
        }
    }
}

// What is found in the first row whose query is typed otherwise.
fn first_other_of(
    alloc: Global,
    g: &Grammar,
    model: &ClassModel,
    is_post: bool,
    rows: &[Row],
) -> Result<Option<String>, Fail>
    requires { g.now ≡ language }
{
    'rows: for row in rows {
        let found = shown_of(alloc, g, model, is_post, row.text)?;
        if found.as_str() != row.want {
            return Ok(Some(found));
        }
    }
    Ok(None)
}

fn first_other_by(
    alloc: Global,
    g: &Grammar,
    is_post: bool,
    rows: &[Row],
) -> Result<Option<String>, Fail>
    requires { g.now ≡ language }
{
    match model_of(alloc, g, WORK)? {
        None => Ok(Some(String::from_str(alloc, "no model")?)),
        Some(model) => first_other_of(alloc, g, &model, is_post, rows),
    }
}

fn first_other(alloc: Global, is_post: bool, rows: &[Row]) -> Result<Option<String>, Fail> {
    match language(alloc)? {
        None => Ok(Some(String::from_str(alloc, "no grammar")?)),
        Some(g) => first_other_by(alloc, &g, is_post, rows),
    }
}

fn class_type(model: &ClassModel, name: &str) -> OclType {
    match model.class_by_name(name) {
        None => OclType::Any,
        Some(class) => OclType::Class(class),
    }
}

// The variables of the session: a Department, a Person, a Project and a number.
fn session(alloc: Global, model: &ClassModel) -> Result<Environment, AllocError>
    ensures { IfOk result (λ e. e.size < 2 ^ 31) }
{
    let mut variables = Environment::new(alloc);
    variables.push(
        Some(Text::copy_of(alloc, "d")?),
        class_type(model, "Department"),
        false,
    )?;
    variables.push(
        Some(Text::copy_of(alloc, "ada")?),
        class_type(model, "Person"),
        false,
    )?;
    variables.push(
        Some(Text::copy_of(alloc, "apollo")?),
        class_type(model, "Project"),
        false,
    )?;
    variables.push(Some(Text::copy_of(alloc, "x")?), OclType::Int, false)?;
    Ok(variables)
}

fn shown_in_session(
    alloc: Global,
    g: &Grammar,
    model: &ClassModel,
    text: &str,
) -> Result<String, Fail>
    requires { g.now ≡ language }
{
    match written_of(alloc, g, text)? {
        None => Ok(String::from_str(alloc, "no query")?),
        Some(written) => {
            let typed = type_in(alloc, model, false, session(alloc, model)?, &written);
            Ok(shown(alloc, model, &typed)?)
        }
    }
}

fn first_other_in_session(
    alloc: Global,
    g: &Grammar,
    model: &ClassModel,
    rows: &[Row],
) -> Result<Option<String>, Fail>
    requires { g.now ≡ language }
{
    'rows: for row in rows {
        let found = shown_in_session(alloc, g, model, row.text)?;
        if found.as_str() != row.want {
            return Ok(Some(found));
        }
    }
    Ok(None)
}

fn other_of_employees(alloc: Global, g: &Grammar, rows: &[Row]) -> Result<Option<String>, Fail>
    requires { g.now ≡ language }
{
    match model_of(alloc, g, EMPLOYEES)? {
        None => Ok(Some(String::from_str(alloc, "no model")?)),
        Some(model) => first_other_in_session(alloc, g, &model, rows),
    }
}

fn other_in_session(alloc: Global, rows: &[Row]) -> Result<Option<String>, Fail> {
    match language(alloc)? {
        None => Ok(Some(String::from_str(alloc, "no grammar")?)),
        Some(g) => other_of_employees(alloc, &g, rows),
    }
}

// What the first table finds that has such a row.
fn other_of_tables(alloc: Global) -> Result<Option<String>, Fail> {
    'tables: for (shows, is_post, rows) in [
        ("queries without variables", false, rows::QUERIED),
        ("operations of values one by one", false, rows::OF_VALUES),
        (
            "operations of collections one by one",
            false,
            rows::OF_COLLECTIONS,
        ),
        ("names that stand for nothing", false, rows::NAMES),
        (
            "properties that values do not have",
            false,
            rows::PROPERTIES,
        ),
        (
            "literals that no enumeration has or more than one",
            false,
            rows::LITERALS,
        ),
        ("operands of the wrong type", false, rows::OPERANDS),
        (
            "more or fewer arguments than parameters",
            false,
            rows::COUNTS,
        ),
        ("arguments of the wrong type", false, rows::ARGUMENTS),
        ("conditions that are not boolean", false, rows::CONDITIONS),
        ("values that do not conform", false, rows::VALUES),
        (
            "operations that are not for the collection",
            false,
            rows::COLLECTIONS,
        ),
        ("iterators that are not well formed", false, rows::ITERATORS),
        (
            "types where values are wanted and the contrary",
            false,
            rows::TYPES,
        ),
        ("operations that are no queries", false, rows::QUERIES),
        (
            "instances of other types than classes",
            false,
            rows::INSTANCES,
        ),
        ("what stands in postconditions alone", false, rows::BEFORE),
        (
            "what postconditions ask of the state before",
            true,
            rows::IN_POSTCONDITIONS,
        ),
        ("the first rule that is broken is told", false, rows::FIRST),
    ] {
        if let Some(found) = first_other(alloc, is_post, rows)? {
            return Ok(Some(format!(in alloc; "{shows}: {}", found.as_str())?));
        }
    }
    Ok(None)
}

#[test]
fn queries_are_typed_or_refused(rt: HostRuntime) -> Result<(), Fail> {
    let other = other_of_tables(rt.alloc())?;
    assert_eq!(rt; other.as_ref().map(|s| s.as_str()), None);
    Ok(())
}

#[test]
fn queries_of_a_session(rt: HostRuntime) -> Result<(), Fail> {
    let other = other_in_session(rt.alloc(), rows::IN_SESSION)?;
    assert_eq!(rt; other.as_ref().map(|s| s.as_str()), None);
    Ok(())
}

// `1`, and so many times `+1` behind it: its operators are as deep as there are of them, and 1 more.
fn chain(alloc: Global, operators: u32) -> Result<String, Fail> {
    let mut text = String::from_str(alloc, "? 1")?;
    'operators: for _ in 0..operators {
        text.push_str("+1")?;
    }
    Ok(text)
}

// Sets in sets, so many of them, and a text in the innermost.
fn nested(alloc: Global, inner: &str, sets: u32) -> Result<String, Fail> {
    let mut text = String::new(alloc);
    'opened: for _ in 0..sets {
        text.push_str("Set{")?;
    }
    text.push_str(inner)?;
    'closed: for _ in 0..sets {
        text.push_str("}")?;
    }
    Ok(text)
}

// A set whose type nests 180 collections more than are written in its body.
fn nested_in_three(alloc: Global, sets: u32) -> Result<String, Fail> {
    let x = nested(alloc, "1", 90)?;
    let y = nested(alloc, "x", 90)?;
    let body = nested(alloc, "y", sets)?;
    Ok(format!(in alloc;
        "? let x = {}, y = {} in {}",
        x.as_str(),
        y.as_str(),
        body.as_str()
    )?)
}

fn type_of_text_by(alloc: Global, g: &Grammar, text: &str) -> Result<String, Fail>
    requires { g.now ≡ language }
{
    match model_of(alloc, g, WORK)? {
        None => Ok(String::from_str(alloc, "no model")?),
        Some(model) => shown_of(alloc, g, &model, false, text),
    }
}

fn type_of_text(alloc: Global, text: &str) -> Result<String, Fail> {
    match language(alloc)? {
        None => Ok(String::from_str(alloc, "no grammar")?),
        Some(g) => type_of_text_by(alloc, &g, text),
    }
}

#[test]
fn nodes_that_are_too_deep(rt: HostRuntime) -> Result<(), Fail> {
    let deepest = type_of_text(rt.alloc(), chain(rt.alloc(), 255)?.as_str())?;
    assert_eq!(rt; deepest.as_str(), "Integer");
    let deeper = type_of_text(rt.alloc(), chain(rt.alloc(), 256)?.as_str())?;
    assert_eq!(rt; deeper.as_str(), "T16 at 1:3");
    Ok(())
}

#[test]
fn types_that_nest_too_many_collections(rt: HostRuntime) -> Result<(), Fail> {
    let deepest = type_of_text(rt.alloc(), nested_in_three(rt.alloc(), 76)?.as_str())?;
    assert!(rt; deepest.as_str().starts_with("Set(Set("));
    let deeper = type_of_text(rt.alloc(), nested_in_three(rt.alloc(), 77)?.as_str())?;
    assert_eq!(rt; deeper.as_str(), "T16 at 1:923");
    Ok(())
}
