use eval_scene::{ALONE, Row, rows_hold};
use std::test::Fail;

/// Operations of Integers, and `toString`.
static OF_INTEGERS: &[Row] = &[
    ("(-3).abs()", "3", 3),
    ("3.abs()", "3", 2),
    (
        "(-170141183460469231731687303715884105727 - 1).abs()",
        "invalid",
        5,
    ),
    ("null.abs()", "invalid", 2),
    ("3.max(5)", "5", 3),
    ("3.min(5)", "3", 3),
    ("3.max(null)", "invalid", 3),
    ("(1 div 0).min(3)", "invalid", 5),
    ("7.div(2)", "3", 3),
    ("(-7).mod(2)", "-1", 4),
    ("7.div(0)", "invalid", 3),
    ("12.toString()", "'12'", 4),
    ("(-12).toString()", "'-12'", 6),
    ("true.toString()", "'true'", 6),
    ("null.toString()", "invalid", 2),
    ("(1 div 0).toString()", "invalid", 4),
    ("ada.age.max(bob.age)", "40 reads Slot(1,1) Slot(2,1)", 7),
    ("dora.age.toString()", "invalid reads Slot(7,1)", 4),
];

/// Operations of Strings.
static OF_STRINGS: &[Row] = &[
    ("'Grüße'.size()", "5", 9),
    ("''.size()", "0", 2),
    ("'a'.concat('b')", "'ab'", 7),
    ("'a'.concat(null)", "invalid", 4),
    ("'abc'.substring(2, 3)", "'bc'", 9),
    ("'abc'.substring(1, 3)", "'abc'", 10),
    ("'abc'.substring(0, 2)", "invalid", 7),
    ("'abc'.substring(3, 2)", "invalid", 7),
    ("'abc'.substring(2, 4)", "invalid", 7),
    ("'Grüße'.at(3)", "'ü'", 12),
    ("'abc'.at(0)", "invalid", 6),
    ("'abc'.at(4)", "invalid", 6),
    ("'abcab'.indexOf('ab')", "1", 10),
    ("'abc'.indexOf('c')", "3", 7),
    ("'abc'.indexOf('x')", "0", 7),
    ("'Grüße'.indexOf('ße')", "4", 13),
    ("'abc'.indexOf('')", "1", 6),
    ("'Grüße'.toUpperCase()", "'GRüßE'", 16),
    ("'aB'.toUpper()", "'AB'", 6),
    ("'GRÜSSE'.toLowerCase()", "'grÜsse'", 16),
    ("'aB'.toLower()", "'ab'", 6),
    ("'Grü'.characters()", "Sequence{'G','r','ü'}", 13),
    ("''.characters()", "Sequence{}", 2),
    ("'12'.toInteger()", "12", 4),
    ("'-12'.toInteger()", "-12", 5),
    ("''.toInteger()", "invalid", 2),
    ("'-'.toInteger()", "invalid", 3),
    ("'1 '.toInteger()", "invalid", 4),
    ("'+1'.toInteger()", "invalid", 4),
    (
        "'170141183460469231731687303715884105728'.toInteger()",
        "invalid",
        41,
    ),
    (
        "'-170141183460469231731687303715884105728'.toInteger()",
        "-170141183460469231731687303715884105728",
        42,
    ),
    ("bob.name.size()", "invalid reads Slot(2,0)", 4),
    (
        "ada.name.at(ada.age)",
        "invalid reads Slot(1,0) Slot(1,1)",
        10,
    ),
];

/// The four tests of definedness.
static DEFINEDNESS: &[Row] = &[
    ("null.oclIsUndefined()", "true", 2),
    ("invalid.oclIsUndefined()", "true", 2),
    ("1.oclIsUndefined()", "false", 2),
    ("null.isUndefined()", "true", 2),
    ("invalid.isUndefined()", "true", 2),
    ("1.isUndefined()", "false", 2),
    ("null.isDefined()", "false", 2),
    ("invalid.isDefined()", "false", 2),
    ("1.isDefined()", "true", 2),
    ("null.oclIsInvalid()", "false", 2),
    ("invalid.oclIsInvalid()", "true", 2),
    ("1.oclIsInvalid()", "false", 2),
    ("Set{}.isDefined()", "true", 2),
    ("Set{null}.oclIsUndefined()", "false", 4),
    ("Set{1 div 0}.oclIsInvalid()", "true", 5),
    ("gone.oclIsUndefined()", "false", 2),
    ("nobody.isDefined()", "false", 2),
    ("gone.age.oclIsInvalid()", "true reads Slot(5,1)", 4),
    ("bob.name.isUndefined()", "true reads Slot(2,0)", 4),
];

#[test]
fn operations_of_integers(rt: HostRuntime) -> Result<(), Fail> {
    rows_hold(rt.alloc(), ALONE, OF_INTEGERS)?;
    Ok(())
}

#[test]
fn operations_of_strings(rt: HostRuntime) -> Result<(), Fail> {
    rows_hold(rt.alloc(), ALONE, OF_STRINGS)?;
    Ok(())
}

#[test]
fn tests_of_definedness(rt: HostRuntime) -> Result<(), Fail> {
    rows_hold(rt.alloc(), ALONE, DEFINEDNESS)?;
    Ok(())
}
