ghost use Rattle.std.specs.Prelude.{All, IfOk, IfSome, length};
ghost use Rattle.use_text.specs.Tokens.{IsWithin};

use model_check::{ModelFault, check_model};
use ocl_core::OpBody;
use ocl_program::Program;
use std::alloc::Global;
use std::test::Fail;
use use_syntax::{Parsed, grammar, read_model};
use use_text::Family;

mod commands;
mod faults;
mod statements;
mod whole;

fn read(alloc: Global, text: &str) -> Result<Option<Parsed>, Fail>
    ensures { IfOk result (λ o. IfSome o (λ p. All (IsWithin (length p.text)) p.tokens)) }
{
    let g = grammar(alloc)?;
    if text.len() > 10_000 {
        return Ok(None);
    }
    match read_model(alloc, &g, text.as_bytes()) {
        Ok(parsed) => Ok(Some(parsed)),
        Err(_) => Ok(None),
    }
}

/// The program of a text.
fn program(alloc: Global, text: &str) -> Result<Option<Program>, Fail> {
    match read(alloc, text)? {
        None => Ok(None),
        Some(parsed) => match check_model(alloc, &parsed) {
            Ok(program) => Ok(Some(program)),
            Err(_) => Ok(None),
        },
    }
}

/// The rule by which a text is refused, and its place.
fn refusal(alloc: Global, text: &str) -> Result<Option<(Family, u8, u32, u32)>, Fail> {
    match read(alloc, text)? {
        None => Ok(None),
        Some(parsed) => match check_model(alloc, &parsed) {
            Err(ModelFault::Refused(r)) => Ok(Some((
                r.code.family,
                r.code.number,
                r.place.line,
                r.place.col,
            ))),
            _ => Ok(None),
        },
    }
}

/// Contracts of an operation that one below overrides, a body of each kind, and an invariant.
const ACCOUNTS: &str = "model Bank
class Account
attributes balance : Integer
  debt : Integer = 0 - self.balance
operations
  after(n : Integer) : Integer = balance + n
  pay(n : Integer) begin self.balance := self.balance + n end
    pre positive: n > 0
  close()
end
class Savings < Account
operations
  pay(n : Integer) begin self.balance := self.balance + n + 1 end
    post more: balance > balance@pre
end
association Backs between
  Account[*] role backed
  Savings[*] role backing
end
constraints
context a : Account inv solvent: a.balance >= 0 or balance > debt
context Account::pay(n : Integer) post: n > 0
";

#[test]
fn a_program_has_what_its_model_declares(rt: HostRuntime) -> Result<(), Fail> {
    let found = program(rt.alloc(), ACCOUNTS)?;
    assert!(rt; found.is_some());
    if let Some(program) = found {
        assert_eq!(rt; program.model().name(), "Bank");
        assert_eq!(rt; program.invariants().len(), 1);
        if let Some(invariant) = program.invariants().first() {
            assert_eq!(rt; invariant.name.as_str(), "solvent");
            assert_eq!(rt; invariant.class, 0);
        }
        assert_eq!(rt; program.as_parts().contracts.len(), 3);
        assert_eq!(rt; program.as_parts().derived.len(), 1);
    }
    Ok(())
}

/// Whether a body is of a kind: a query, statements, or none.
fn is_of(body: &OpBody, kind: char) -> bool {
    match body {
        OpBody::Query(_) => kind == 'q',
        OpBody::Soil(_) => kind == 's',
        OpBody::None => kind == 'n',
    }
}

#[test]
fn operations_have_their_bodies_and_the_contracts_of_what_they_override(
    rt: HostRuntime,
) -> Result<(), Fail> {
    let found = program(rt.alloc(), ACCOUNTS)?;
    assert!(rt; found.is_some());
    if let Some(program) = found {
        if 3 < program.model().op_count() {
            assert!(rt; is_of(program.op_body(0), 'q'));
            assert!(rt; is_of(program.op_body(1), 's'));
            assert!(rt; is_of(program.op_body(2), 'n'));
            assert_eq!(rt; program.contracts(1), [0, 2].as_slice());
            assert_eq!(rt; program.contracts(3), [0, 2, 1].as_slice());
        }
    }
    Ok(())
}

/// A text, and the family, the number and the place of the rule that it breaks.
type Row = (&'static str, (Family, u8, u32, u32));

const REFUSALS: [Row; 10] = [
    (
        "model F\nclass A\nend\nconstraints\ncontext A inv i: foo > 1",
        (Family::N, 1, 5, 18),
    ),
    (
        "model F\nclass A\nend\nconstraints\ncontext A inv i: 1 + 'a' = 2",
        (Family::T, 1, 5, 20),
    ),
    // no name of the shell is seen
    (
        "model M\nclass A end\nconstraints context A inv: x = 1",
        (Family::N, 1, 3, 28),
    ),
    // a precondition sees no result
    (
        "model M\nclass A operations f() : Integer\npre: result = 1 end",
        (Family::N, 1, 3, 6),
    ),
    // the least rule of declarations, before rules of types
    (
        "model M\nclass A operations f() : Integer = 'a' end\nclass A end",
        (Family::M, 1, 3, 7),
    ),
    // bodies in the order of the text
    (
        "model M\nclass A operations f() : Integer = 'a'\ng() : Integer = nobody end",
        (Family::T, 5, 2, 36),
    ),
    // an operation's contracts come behind its body
    (
        "model M\nclass A operations f() : Integer = 'a'\npre: 1 end",
        (Family::T, 5, 2, 36),
    ),
    // contexts come where they stand
    (
        "model M\nclass A end\nconstraints context A inv: 1\nclass B attributes x : Integer = 'a' end",
        (Family::T, 4, 3, 28),
    ),
    // attributes of a class before its operations
    (
        "model M\nclass A attributes x : Integer = 'a'\noperations f() = 1 end",
        (Family::T, 5, 2, 34),
    ),
    // what stands at entry is for postconditions
    (
        "model M\nclass A attributes x : Integer operations f()\npre: x@pre = 1 end",
        (Family::T, 9, 3, 6),
    ),
];

#[test]
fn the_first_broken_rule_is_told(rt: HostRuntime) -> Result<(), Fail> {
    'rows: for row in REFUSALS.iter() {
        assert_eq!(rt; refusal(rt.alloc(), row.0)?, Some(row.1));
    }
    Ok(())
}
