ghost use Rattle.std.specs.Prelude.{All, IfOk, IfSome, length};
ghost use Rattle.use_text.specs.Tokens.{IsWithin};

use ocl_syntax::*;
use std::alloc::Global;
use std::test::Fail;
use use_decls::Lexed;
use use_nodes::{CommandNode, NodeRef, QueryNode};
use use_syntax::{Parsed, grammar, read_command};

mod rows;
mod shown;

use rows::{FORMS, OPERATORS, Row, STEPS};
use shown::shown;

fn read(alloc: Global, text: &str) -> Result<Option<Parsed>, Fail>
    ensures { IfOk result (λ o. IfSome o (λ p. All (IsWithin (length p.text)) p.tokens)) }
{
    let g = grammar(alloc)?;
    if text.len() > 10_000 {
        return Ok(None);
    }
    match read_command(alloc, &g, text.as_bytes(), 1) {
        Ok(parsed) => Ok(Some(parsed)),
        Err(_) => Ok(None),
    }
}

// The expression that a command asks for.
fn asked<'a>(root: &NodeRef<'a>) -> Option<NodeRef<'a>> {
    let command = CommandNode::of(root)?;
    let query = QueryNode::of(&command.form?)?;
    Some(query.expression)
}

fn written_of(alloc: Global, text: &str) -> Result<Option<Written>, Fail> {
    match read(alloc, text)? {
        None => Ok(None),
        Some(parsed) => match asked(&NodeRef::root(&parsed.tree)) {
            None => Ok(None),
            Some(node) => Ok(Some(written(alloc, &Lexed::of(&parsed), &node)?)),
        },
    }
}

// What is written in a text, or that it is refused.
fn shown_of(alloc: Global, text: &str) -> Result<String, Fail> {
    match written_of(alloc, text)? {
        None => Ok(String::from_str(alloc, "refused")?),
        Some(e) => Ok(shown(alloc, &e)?),
    }
}

// The first row whose text is written otherwise.
fn first_other(alloc: Global, rows: &'static [Row]) -> Result<Option<String>, Fail> {
    'rows: for row in rows {
        let found = shown_of(alloc, row.text)?;
        if found.as_str() != row.want {
            return Ok(Some(found));
        }
    }
    Ok(None)
}

// `1`, and so many times `+1` behind it.
fn chain(alloc: Global, operators: u32) -> Result<String, Fail> {
    let mut text = String::from_str(alloc, "? 1")?;
    'operators: for _ in 0..operators {
        text.push_str("+1")?;
    }
    Ok(text)
}

// What is left out of a chain of 300 operators: that of the operator at depth 257, the 44th.
fn left_out_of_chain(alloc: Global) -> Result<String, Fail> {
    let text = chain(alloc, 300)?;
    let shown = shown_of(alloc, text.as_str())?;
    match shown.as_str().split_once("deep") {
        None => Ok(String::from_str(alloc, "nothing")?),
        Some((_, rest)) => match rest.split_once(" ") {
            None => Ok(String::from_str(alloc, rest)?),
            Some((place, _)) => Ok(String::from_str(alloc, place)?),
        },
    }
}

#[test]
fn each_form_with_its_places(rt: HostRuntime) -> Result<(), Fail> {
    let other = first_other(rt.alloc(), FORMS)?;
    assert_eq!(rt; other.as_ref().map(|s| s.as_str()), None);
    Ok(())
}

#[test]
fn operators_group_from_the_left(rt: HostRuntime) -> Result<(), Fail> {
    let other = first_other(rt.alloc(), OPERATORS)?;
    assert_eq!(rt; other.as_ref().map(|s| s.as_str()), None);
    Ok(())
}

#[test]
fn steps_and_binds_with_their_places(rt: HostRuntime) -> Result<(), Fail> {
    let other = first_other(rt.alloc(), STEPS)?;
    assert_eq!(rt; other.as_ref().map(|s| s.as_str()), None);
    Ok(())
}

#[test]
fn the_operator_at_depth_257_is_too_deep(rt: HostRuntime) -> Result<(), Fail> {
    let place = left_out_of_chain(rt.alloc())?;
    assert_eq!(rt; place.as_str(), "@1:90");
    Ok(())
}

// The first place of an expression, the place at which it is spoken of, and its name if it is one.
fn places_of(alloc: Global, text: &str) -> Result<String, Fail> {
    match written_of(alloc, text)? {
        None => Ok(String::from_str(alloc, "refused")?),
        Some(e) => {
            let name = match e.bare_name() {
                None => "-",
                Some(name) => name.text.as_str(),
            };
            Ok(format!(in alloc; "{} {} {name}", e.first_place(), e.place())?)
        }
    }
}

#[test]
fn where_expressions_stand_and_are_spoken_of(rt: HostRuntime) -> Result<(), Fail> {
    let sum = places_of(rt.alloc(), "? a.b + 1")?;
    assert_eq!(rt; sum.as_str(), "1:3 1:7 -");
    let name = places_of(rt.alloc(), "? ((a))")?;
    assert_eq!(rt; name.as_str(), "1:3 1:5 a");
    Ok(())
}
