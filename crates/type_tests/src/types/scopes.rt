ghost use Rattle.std.specs.Prelude.{◌<◌, ◌^◌, IfOk};

use super::models::WORK;
use super::shown::shown;
use super::{language, model_of};
use class_decls::{Name, TypeDecl};
use class_model::{ClassModel, OclType};
use ocl_core::Expr;
use ocl_rules::{TypeFault, Typed};
use ocl_scope::{
    Environment, Given, bare, call_rule, declared_if, declared_type, definedness, finds_value,
    implicit_call, literal_type, only_literal_rule, property, qualified, type_named, type_test,
    type_wanted,
};
use ocl_values::{Kind, Text, Value};
use std::alloc::{AllocError, Global};
use std::test::Fail;
use use_lists::Items;
use use_text::Place;

/// How a name is looked up.
#[derive(Clone, Copy, Debug)]
enum Asked {
    Bare,
    Wanted,
    Declared,
    DeclaredIf,
    OnlyLiteral,
    /// Among the literals of `Color`.
    Qualified,
    /// Of a Person.
    Property,
    /// Of a Person, with one number.
    Called,
    /// Of what is implicit, with one number.
    Implicit,
}

/// Each lookup with a name, and the type that it gives or the rule that it breaks.
const QUESTIONS: [(Asked, &str, &str); 14] = [
    (Asked::Bare, "x", "Integer"),
    (Asked::Bare, "age", "Integer"),
    (Asked::Bare, "nobody", "N1 at 1:1"),
    (Asked::Wanted, "Person", "Person"),
    (Asked::Wanted, "x", "T8 at 1:1"),
    (Asked::Declared, "Person", "Bag(Person)"),
    (Asked::DeclaredIf, "Color", "Bag(Color)"),
    (Asked::OnlyLiteral, "green", "Color"),
    (Asked::OnlyLiteral, "red", "N3 at 1:1"),
    (Asked::Qualified, "red", "Color"),
    (Asked::Property, "name", "String"),
    (Asked::Property, "older", "N2 at 1:1"),
    (Asked::Called, "older", "Integer"),
    (Asked::Implicit, "older", "Integer"),
];

/// A name at the beginning of a text.
pub(super) fn name(alloc: Global, text: &str) -> Result<Name, AllocError> {
    Ok(Name {
        text: Text::copy_of(alloc, text)?,
        place: Place { line: 1, col: 1 },
    })
}

/// Bags of a type.
fn bags(alloc: Global, text: &str) -> Result<TypeDecl, AllocError> {
    Ok(TypeDecl {
        kinds: Items::from_vec(vec![in alloc; Kind::Bag]?),
        name: name(alloc, text)?,
    })
}

/// One number, as an argument.
pub(super) fn one(alloc: Global) -> Result<Items<Typed>, AllocError> {
    let number = Typed {
        expr: Expr::Literal(Value::Int(1)),
        of_type: OclType::Int,
    };
    Ok(Items::from_vec(vec![in alloc; number]?))
}

/// `self`, an implicit Person, and a number `x`.
pub(super) fn environment(alloc: Global) -> Result<Environment, AllocError>
    ensures { IfOk result (λ e. e.size < 2 ^ 31) }
{
    let mut variables = Environment::new(alloc);
    variables.push(Some(Text::copy_of(alloc, "self")?), OclType::Class(0), true)?;
    variables.push(Some(Text::copy_of(alloc, "x")?), OclType::Int, false)?;
    Ok(variables)
}

pub(super) fn work(alloc: Global) -> Result<Option<ClassModel>, Fail> {
    match language(alloc)? {
        None => Ok(None),
        Some(g) => model_of(alloc, &g, WORK),
    }
}

fn typed_as(of_type: OclType) -> Typed {
    Typed {
        expr: Expr::Local(0),
        of_type,
    }
}

/// What is written of a type.
fn declared(
    alloc: Global,
    model: &ClassModel,
    variables: &Environment,
    text: &str,
) -> Result<Typed, TypeFault> {
    match declared_if(alloc, model, variables, &Some(bags(alloc, text)?))? {
        None => Ok(typed_as(OclType::Void)),
        Some(of_type) => Ok(typed_as(of_type)),
    }
}

fn called(alloc: Global, model: &ClassModel, name: &Name) -> Result<Typed, TypeFault> {
    let given = Given::Values(one(alloc)?, true);
    call_rule(
        alloc,
        model,
        false,
        name,
        false,
        typed_as(OclType::Class(0)),
        given,
    )
}

fn answered(
    alloc: Global,
    model: &ClassModel,
    variables: &Environment,
    how: Asked,
    text: &str,
) -> Result<Typed, TypeFault> {
    let sought = name(alloc, text)?;
    match how {
        Asked::Bare => bare(alloc, model, false, variables, &sought, false),
        Asked::Wanted => Ok(typed_as(type_wanted(model, variables, &sought)?)),
        Asked::Declared => {
            let written = bags(alloc, text)?;
            Ok(typed_as(declared_type(alloc, model, variables, &written)?))
        }
        Asked::DeclaredIf => declared(alloc, model, variables, text),
        Asked::OnlyLiteral => only_literal_rule(model, &sought),
        Asked::Qualified => {
            qualified(
                model,
                variables,
                &name(alloc, "Color")?,
                &sought,
                false,
                false,
            )
        }
        Asked::Property => {
            property(
                alloc,
                model,
                false,
                &sought,
                false,
                typed_as(OclType::Class(0)),
            )
        }
        Asked::Called => called(alloc, model, &sought),
        Asked::Implicit => {
            let given = Given::Values(one(alloc)?, true);
            implicit_call(alloc, model, false, variables, &sought, false, given)
        }
    }
}

/// What is found by the first row that finds another.
fn first_other(alloc: Global, model: &ClassModel) -> Result<Option<String>, Fail> {
    let variables = environment(alloc)?;
    'rows: for row in QUESTIONS.iter() {
        let found = shown(
            alloc,
            model,
            &answered(alloc, model, &variables, row.0, row.1),
        )?;
        if found.as_str() != row.2 {
            return Ok(Some(found));
        }
    }
    Ok(None)
}

#[test]
fn names_stand_for_variables_properties_types_and_literals(rt: HostRuntime) -> Result<(), Fail> {
    let found = work(rt.alloc())?;
    assert!(rt; found.is_some());
    if let Some(model) = found {
        let other = first_other(rt.alloc(), &model)?;
        assert_eq!(rt; other.as_ref().map(|s| s.as_str()), None);
    }
    Ok(())
}

#[test]
fn names_are_found_among_types_and_values(rt: HostRuntime) -> Result<(), Fail> {
    let variables = environment(rt.alloc())?;
    let found = work(rt.alloc())?;
    assert!(rt; found.is_some());
    if let Some(model) = found {
        assert_eq!(rt; type_named(&model, "Color"), Some(OclType::Enum(1)));
        assert_eq!(rt; type_named(&model, "age"), None);
        assert!(rt; finds_value(&model, &variables, "age"));
        assert!(rt; !finds_value(&model, &variables, "nobody"));
    }
    assert_eq!(rt; literal_type(&Value::Int(1)), OclType::Int);
    Ok(())
}

#[test]
fn tests_of_values_are_found_by_name(rt: HostRuntime) -> Result<(), Fail> {
    assert!(rt; definedness("isDefined").is_some());
    assert!(rt; definedness("oclAsType").is_none());
    assert!(rt; type_test("oclAsType").is_some());
    assert!(rt; type_test("isDefined").is_none());
    Ok(())
}

#[test]
fn variables_are_pushed_renamed_and_left(rt: HostRuntime) -> Result<(), Fail> {
    let alloc = rt.alloc();
    let mut variables = environment(alloc)?;
    let before = variables.scope();
    variables.push_values(3);
    variables.push_name(Text::copy_of(alloc, "y")?, OclType::Str, 0)?;
    variables.rename(alloc, 1, Text::copy_of(alloc, "z")?, OclType::Bool);
    assert_eq!(rt; variables.size(), 5);
    assert_eq!(rt; variables.variables().len(), 3);
    assert!(rt; variables.variable_named("x").is_none());
    assert_eq!(rt; variables.variable_named("y").map(|v| v.number), Some(0));
    assert_eq!(rt; variables.variable_named("z").map(|v| v.number), Some(1));
    variables.leave(before);
    assert_eq!(rt; variables.size(), 2);
    assert!(rt; variables.variable_named("y").is_none());
    Ok(())
}
