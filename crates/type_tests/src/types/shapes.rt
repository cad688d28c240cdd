ghost use Rattle.std.specs.Prelude.{◌≡◌, ◌<◌, ◌^◌};
ghost use Rattle.use_syntax.specs.Language.{language};

use super::scopes::{environment, name, one, work};
use super::shown::shown;
use super::{language, written_of};
use class_decls::Name;
use class_model::{ClassModel, OclType};
use grammar_core::Grammar;
use ocl_core::{Expr, IterOp};
use ocl_rules::{TypeFault, Typed, collection_operation};
use ocl_scope::{Environment, Given, TypeArgument, type_named};
use ocl_shapes::*;
use ocl_syntax::{Argument, Written};
use ocl_values::{Kind, Value};
use std::alloc::{AllocError, Global};
use std::test::Fail;
use use_lists::{Boxed, Items};
use use_text::Place;

/// A call, whether its arguments are plain, and for each argument which shapes it has.
const SHAPES: [(&str, &str); 7] = [
    ("? 1->any", "none"),
    ("? 1->any()", "none"),
    ("? 1->any(1)", "plain alone"),
    ("? 1->any(x)", "plain alone,asked,variable,named"),
    ("? 1->any(x : Integer)", "other asked,variable,named,typed"),
    (
        "? 1->any(x : Integer = 2)",
        "other asked,named,typed,started",
    ),
    (
        "? 1->iterate(x; y : Integer = 0 | z)",
        "other alone,asked,variable,named accumulator,named,typed,started body,named",
    ),
];

/// A word more, if it holds.
fn mark(word: &str, holds: bool, out: &mut String) -> Result<(), AllocError> {
    if !holds {
        return Ok(());
    }
    if !out.as_str().ends_with(" ") {
        out.push_str(",")?;
    }
    out.push_str(word)
}

fn add_shapes(argument: &Argument, out: &mut String) -> Result<(), AllocError> {
    out.push_str(" ")?;
    mark("alone", alone(argument).is_some(), out)?;
    mark("asked", asked_name(argument).is_some(), out)?;
    mark("variable", variable_name(argument).is_some(), out)?;
    mark("accumulator", accumulator_name(argument).is_some(), out)?;
    mark("body", body_of(argument).is_some(), out)?;
    mark("named", plain_name(expression_of(argument)).is_some(), out)?;
    mark("typed", written_type(argument).is_some(), out)?;
    mark("started", start_of(argument).is_some(), out)
}

fn call_shapes(alloc: Global, arguments: &Option<Items<Argument>>) -> Result<String, AllocError> {
    if has_none(arguments) {
        return String::from_str(alloc, "none");
    }
    let listed = or_none(arguments);
    let word = if are_plain(listed) { "plain" } else { "other" };
    let mut out = String::from_str(alloc, word)?;
    'arguments: for argument in listed {
        add_shapes(argument, &mut out)?;
    }
    Ok(out)
}

fn shapes_of(alloc: Global, g: &Grammar, text: &str) -> Result<String, Fail>
    requires { g.now ≡ language }
{
    match written_of(alloc, g, text)? {
        Some(Written::Arrow(_, _, arguments)) => Ok(call_shapes(alloc, &arguments)?),
        _ => Ok(String::from_str(alloc, "no call")?),
    }
}

/// The shapes of the first call that has others.
fn first_other_shape(alloc: Global, g: &Grammar) -> Result<Option<String>, Fail>
    requires { g.now ≡ language }
{
    'rows: for row in SHAPES.iter() {
        let found = shapes_of(alloc, g, row.0)?;
        if found.as_str() != row.1 {
            return Ok(Some(found));
        }
    }
    Ok(None)
}

#[test]
fn arguments_have_their_shapes(rt: HostRuntime) -> Result<(), Fail> {
    let found = language(rt.alloc())?;
    assert!(rt; found.is_some());
    if let Some(g) = found {
        let other = first_other_shape(rt.alloc(), &g)?;
        assert_eq!(rt; other.as_ref().map(|s| s.as_str()), None);
    }
    Ok(())
}

/// An iterator, whether it may have two variables, and whether it accumulates a value.
const ITERATORS: [(&str, bool, bool); 11] = [
    ("select", false, false),
    ("reject", false, false),
    ("any", false, false),
    ("one", false, false),
    ("forAll", true, false),
    ("exists", true, false),
    ("isUnique", false, false),
    ("collectNested", false, false),
    ("collect", false, false),
    ("sortedBy", false, false),
    ("iterate", false, true),
];

#[test]
fn iterators_are_found_by_name(rt: HostRuntime) -> Result<(), Fail> {
    assert!(rt; iterator_named("size").is_none());
    'rows: for row in ITERATORS.iter() {
        let found = iterator_named(row.0);
        assert_eq!(rt; found.map(|op| may_have_two(op)), Some(row.1));
        assert_eq!(rt; found.map(|op| accumulates(op)), Some(row.2));
    }
    Ok(())
}

/// Which rule is asked, of a Person or of the number 1.
#[derive(Clone, Copy, Debug)]
enum Asked {
    Extent,
    Property,
    Called,
    Named,
    Operation,
    Iterated,
    Accumulated,
    Malformed,
}

/// Each rule with a name, and the type that it gives or the rule that is broken.
const QUESTIONS: [(Asked, &str, &str); 12] = [
    (Asked::Extent, "Person", "Set(Person)"),
    (Asked::Extent, "Color", "T13 at 1:1"),
    (Asked::Property, "age", "Integer"),
    (Asked::Property, "nobody", "N2 at 1:1"),
    (Asked::Called, "older", "Integer"),
    (Asked::Called, "rename", "T3 at 1:1"),
    (Asked::Named, "name", "String"),
    (Asked::Named, "Person", "T8 at 1:1"),
    (Asked::Operation, "including", "Set(Integer)"),
    (Asked::Iterated, "select", "Set(Integer)"),
    (Asked::Accumulated, "iterate", "Integer"),
    (Asked::Malformed, "iterate", "T7 at 1:1"),
];

fn number() -> Typed {
    Typed {
        expr: Expr::Literal(Value::Int(1)),
        of_type: OclType::Int,
    }
}

fn operation(alloc: Global, model: &ClassModel, name: &Name) -> Result<Typed, TypeFault> {
    let elements = elements_of(alloc, number())?;
    let found = collection_operation(name.text.as_str());
    operation_called(alloc, model, name, elements, one(alloc)?, true, found)
}

fn selected(alloc: Global, model: &ClassModel, name: &Name) -> Result<Typed, TypeFault> {
    let elements = elements_of(alloc, number())?;
    let body = Typed {
        expr: Expr::Literal(Value::Bool(true)),
        of_type: OclType::Bool,
    };
    let op = IterOp::Select;
    iterated(alloc, model, name, op, elements, 1, &[], name.place, body)
}

fn summed(alloc: Global, model: &ClassModel, name: &Name) -> Result<Typed, TypeFault> {
    let elements = elements_of(alloc, number())?;
    let places = (name.place, name.place);
    let of_type = OclType::Int;
    accumulated(
        alloc,
        model,
        name,
        elements,
        &None,
        of_type,
        places,
        number(),
        number(),
    )
}

fn person() -> Typed
    ensures { result.of_type ≡ OclType.Class 0 }
{
    Typed {
        expr: Expr::Local(0),
        of_type: OclType::Class(0),
    }
}

fn all_instances(
    alloc: Global,
    model: &ClassModel,
    variables: &Environment,
    sought: &Name,
) -> Result<Typed, TypeFault>
    requires { variables.now.size < 2 ^ 31 }
{
    let found = type_named(model, sought.text.as_str());
    let operation = name(alloc, "allInstances")?;
    extent(
        alloc, model, false, variables, sought, &operation, false, true, found,
    )
}

fn called_of_person(
    alloc: Global,
    model: &ClassModel,
    variables: &Environment,
    sought: &Name,
) -> Result<Typed, TypeFault>
    requires { variables.now.size < 2 ^ 31 }
{
    let given = Given::Values(one(alloc)?, true);
    called(
        alloc,
        model,
        false,
        variables,
        sought,
        false,
        person(),
        false,
        given,
    )
}

fn answered(
    alloc: Global,
    model: &ClassModel,
    variables: &Environment,
    how: Asked,
    sought: &Name,
) -> Result<Typed, TypeFault>
    requires { variables.now.size < 2 ^ 31 }
{
    match how {
        Asked::Extent => all_instances(alloc, model, variables, sought),
        Asked::Property => property(alloc, model, false, variables, sought, false, person()),
        Asked::Called => called_of_person(alloc, model, variables, sought),
        Asked::Named => named_by(alloc, model, false, variables, sought, false, &None, None),
        Asked::Operation => operation(alloc, model, sought),
        Asked::Iterated => selected(alloc, model, sought),
        Asked::Accumulated => summed(alloc, model, sought),
        Asked::Malformed => Err(malformed(sought)),
    }
}

/// What is found by the first row that finds another.
fn first_other(alloc: Global, model: &ClassModel) -> Result<Option<String>, Fail> {
    let variables = environment(alloc)?;
    'rows: for row in QUESTIONS.iter() {
        let sought = name(alloc, row.1)?;
        let told = answered(alloc, model, &variables, row.0, &sought);
        let found = shown(alloc, model, &told)?;
        if found.as_str() != row.2 {
            return Ok(Some(found));
        }
    }
    Ok(None)
}

#[test]
fn calls_are_typed_by_their_shapes(rt: HostRuntime) -> Result<(), Fail> {
    let found = work(rt.alloc())?;
    assert!(rt; found.is_some());
    if let Some(model) = found {
        let other = first_other(rt.alloc(), &model)?;
        assert_eq!(rt; other.as_ref().map(|s| s.as_str()), None);
    }
    Ok(())
}

#[test]
fn a_value_before_an_arrow_is_a_set(rt: HostRuntime) -> Result<(), Fail> {
    let alloc = rt.alloc();
    let elements = elements_of(alloc, number())?;
    assert_eq!(rt; elements.kind, Kind::Set);
    assert_eq!(rt; elements.element, OclType::Int);
    let sets = OclType::Coll(Kind::Set, Boxed::new(alloc, OclType::Int)?);
    assert!(rt; asks_elements(&sets, "abs"));
    assert!(rt; !asks_elements(&sets, "isDefined"));
    assert!(rt; !asks_elements(&OclType::Int, "abs"));
    Ok(())
}

fn is_type(found: &Result<TypeArgument, TypeFault>) -> bool {
    matches!(found, Ok(TypeArgument::OfType(_)))
}

#[test]
fn names_of_classes_are_arguments_and_sources(rt: HostRuntime) -> Result<(), Fail> {
    let alloc = rt.alloc();
    let variables = environment(alloc)?;
    let person = name(alloc, "Person")?;
    let source = Written::Named(name(alloc, "Person")?, None, false, None);
    assert!(rt; class_asked(&source, &name(alloc, "allInstances")?).is_some());
    assert!(rt; class_asked(&source, &person).is_none());
    let found = work(alloc)?;
    assert!(rt; found.is_some());
    if let Some(model) = found {
        let of_type = Some(OclType::Class(0));
        assert!(rt; is_type(&type_found(&model, &variables, &person, of_type)));
        assert!(rt; !is_type(&type_found(&model, &variables, &person, None)));
    }
    Ok(())
}
