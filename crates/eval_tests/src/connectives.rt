use eval_scene::{ALONE, Row, rows_hold};
use std::test::Fail;

/// The tables of `and` and `or`.
static CONJUNCTIONS: &[Row] = &[
    ("true and true", "true", 3),
    ("true and false", "false", 3),
    ("true and null", "null", 3),
    ("true and invalid", "invalid", 3),
    ("false and true", "false", 2),
    ("false and false", "false", 2),
    ("false and null", "false", 2),
    ("false and invalid", "false", 2),
    ("null and true", "null", 3),
    ("null and false", "false", 3),
    ("null and null", "null", 3),
    ("null and invalid", "invalid", 3),
    ("invalid and true", "invalid", 3),
    ("invalid and false", "false", 3),
    ("invalid and null", "invalid", 3),
    ("invalid and invalid", "invalid", 3),
    ("true or true", "true", 2),
    ("true or false", "true", 2),
    ("true or null", "true", 2),
    ("true or invalid", "true", 2),
    ("false or true", "true", 3),
    ("false or false", "false", 3),
    ("false or null", "null", 3),
    ("false or invalid", "invalid", 3),
    ("null or true", "true", 3),
    ("null or false", "null", 3),
    ("null or null", "null", 3),
    ("null or invalid", "invalid", 3),
    ("invalid or true", "true", 3),
    ("invalid or false", "invalid", 3),
    ("invalid or null", "invalid", 3),
    ("invalid or invalid", "invalid", 3),
];

/// The tables of `xor` and `implies`.
static IMPLICATIONS: &[Row] = &[
    ("true xor true", "false", 3),
    ("true xor false", "true", 3),
    ("true xor null", "null", 3),
    ("true xor invalid", "invalid", 3),
    ("false xor true", "true", 3),
    ("false xor false", "false", 3),
    ("false xor null", "null", 3),
    ("false xor invalid", "invalid", 3),
    ("null xor true", "null", 3),
    ("null xor false", "null", 3),
    ("null xor null", "null", 3),
    ("null xor invalid", "invalid", 3),
    ("invalid xor true", "invalid", 3),
    ("invalid xor false", "invalid", 3),
    ("invalid xor null", "invalid", 3),
    ("invalid xor invalid", "invalid", 3),
    ("true implies true", "true", 3),
    ("true implies false", "false", 3),
    ("true implies null", "null", 3),
    ("true implies invalid", "invalid", 3),
    ("false implies true", "true", 2),
    ("false implies false", "true", 2),
    ("false implies null", "true", 2),
    ("false implies invalid", "true", 2),
    ("null implies true", "true", 3),
    ("null implies false", "null", 3),
    ("null implies null", "null", 3),
    ("null implies invalid", "invalid", 3),
    ("invalid implies true", "true", 3),
    ("invalid implies false", "invalid", 3),
    ("invalid implies null", "invalid", 3),
    ("invalid implies invalid", "invalid", 3),
];

#[test]
fn and_and_or_by_their_tables(rt: HostRuntime) -> Result<(), Fail> {
    rows_hold(rt.alloc(), ALONE, CONJUNCTIONS)?;
    Ok(())
}

#[test]
fn xor_and_implies_by_their_tables(rt: HostRuntime) -> Result<(), Fail> {
    rows_hold(rt.alloc(), ALONE, IMPLICATIONS)?;
    Ok(())
}
