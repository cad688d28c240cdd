ghost use Rattle.std.specs.Prelude.{All, IfOk, IfSome, length};
ghost use Rattle.use_text.specs.Tokens.{IsWithin};

use std::test::Fail;
use use_decls::*;
use use_syntax::{Parsed, grammar, read_model};

mod rows;
mod shown;

use rows::{CONDITIONS, EMPLOYEES, MULTIPLICITIES, ROLES, Row, TYPES};
use shown::shown;
use std::alloc::Global;

fn read(alloc: Global, text: &str) -> Result<Option<Parsed>, Fail>
    ensures { IfOk result (λ o. IfSome o (λ p. All (IsWithin (length p.text)) p.tokens)) }
{
    let g = grammar(alloc)?;
    if text.len() > 10_000 {
        return Ok(None);
    }
    match read_model(alloc, &g, text.as_bytes()) {
        Ok(parsed) => Ok(Some(parsed)),
        Err(_) => Ok(None),
    }
}

// What the model of a row declares, a line each.
fn declared(alloc: Global, row: &Row) -> Result<String, Fail> {
    match read(alloc, row.model)? {
        None => Ok(String::from_str(alloc, "refused")?),
        Some(parsed) => Ok(shown(alloc, &decls(alloc, &parsed)?)?),
    }
}

// The first row whose model declares something else.
fn first_other(alloc: Global, rows: &'static [Row]) -> Result<Option<Row>, Fail> {
    'rows: for row in rows {
        if declared(alloc, row)?.as_str() != row.want {
            return Ok(Some(*row));
        }
    }
    Ok(None)
}

#[test]
fn a_whole_model_is_read(rt: HostRuntime) -> Result<(), Fail> {
    assert!(rt; first_other(rt.alloc(), EMPLOYEES)?.is_none());
    Ok(())
}

#[test]
fn types_name_their_kinds_from_the_outside_in(rt: HostRuntime) -> Result<(), Fail> {
    assert!(rt; first_other(rt.alloc(), TYPES)?.is_none());
    Ok(())
}

#[test]
fn bounds_of_multiplicities(rt: HostRuntime) -> Result<(), Fail> {
    assert!(rt; first_other(rt.alloc(), MULTIPLICITIES)?.is_none());
    Ok(())
}

#[test]
fn roles_that_are_not_written(rt: HostRuntime) -> Result<(), Fail> {
    assert!(rt; first_other(rt.alloc(), ROLES)?.is_none());
    Ok(())
}

#[test]
fn conditions_stand_in_the_order_of_the_text_with_their_names(rt: HostRuntime) -> Result<(), Fail> {
    assert!(rt; first_other(rt.alloc(), CONDITIONS)?.is_none());
    Ok(())
}
