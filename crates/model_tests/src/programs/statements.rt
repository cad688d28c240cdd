use super::{program, refusal};
use std::alloc::Global;
use std::test::Fail;
use use_text::Family;

/// What stands before and behind a statement in the body of an operation; it begins in line 3.
const BEFORE: &str =
    "model M\nclass A attributes n : Integer g : Integer = 1 operations f(p : Integer) : Integer\nbegin ";

const BEHIND: &str =
    "; result := 1 end\ng() begin end end\nclass B < A end\nassociation R between A[*] role a B[*] role b end";

fn with_statement(alloc: Global, statement: &str) -> Result<String, Fail> {
    let mut text = String::from_str(alloc, BEFORE)?;
    text.push_str(statement)?;
    text.push_str(BEHIND)?;
    Ok(text)
}

const ACCEPTED: [&str; 10] = [
    "create x : A",
    "x := new A",
    "self.n := 1",
    "self.f(1)",
    "x := self.f(1)",
    "insert (self, null) into R",
    "destroy self",
    "if true then x := 1 else x := 'a' end",
    "while true do end",
    "for x in Set{1} do y := x end",
];

/// A statement, and the family, the number and the column of the rule that it breaks.
const REFUSED: [(&str, (Family, u8, u32)); 23] = [
    ("create x : Nope", (Family::T, 13, 18)),
    ("x := new A(1)", (Family::T, 5, 18)),
    ("new Nope", (Family::T, 13, 11)),
    ("self.n := 'a'", (Family::T, 5, 17)),
    ("self := null", (Family::T, 11, 7)),
    ("p := 1", (Family::T, 11, 7)),
    ("1 + 2", (Family::T, 11, 7)),
    ("self.f()", (Family::T, 2, 12)),
    ("declare x : Integer; x := 'a'", (Family::T, 5, 33)),
    ("insert (self, self) into R", (Family::T, 5, 21)),
    ("insert (self, self) into S", (Family::N, 3, 32)),
    ("insert (1, self) into R", (Family::T, 14, 15)),
    ("delete (1, self) from R", (Family::T, 14, 15)),
    ("destroy 1", (Family::T, 14, 15)),
    ("if 1 then x := nobody end", (Family::N, 1, 22)),
    ("if 1 then end", (Family::T, 4, 10)),
    ("while 1 do x := nobody end", (Family::N, 1, 23)),
    ("while 1 do end", (Family::T, 4, 13)),
    ("for x in 1 do y := nobody end", (Family::T, 15, 16)),
    ("for x in Set{1} do x := 2 end", (Family::T, 11, 26)),
    ("if true then y := 1 end; z := y", (Family::N, 1, 37)),
    ("self.g := 1", (Family::T, 11, 7)),
    ("x := self.g()", (Family::T, 12, 7)),
];

#[test]
fn each_form_of_statement_is_accepted(rt: HostRuntime) -> Result<(), Fail> {
    'statements: for statement in ACCEPTED.iter() {
        let text = with_statement(rt.alloc(), statement)?;
        assert!(rt; program(rt.alloc(), text.as_str())?.is_some());
    }
    Ok(())
}

#[test]
fn each_form_of_statement_is_refused_by_its_rules(rt: HostRuntime) -> Result<(), Fail> {
    'statements: for row in REFUSED.iter() {
        let text = with_statement(rt.alloc(), row.0)?;
        let wanted = Some((row.1.0, row.1.1, 3, row.1.2));
        assert_eq!(rt; refusal(rt.alloc(), text.as_str())?, wanted);
    }
    Ok(())
}
