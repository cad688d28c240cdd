ghost use Rattle.std.specs.Prelude.{◌≡◌, ◌<◌, ◌≤◌, All, IfOk, IfSome, length};
ghost use Rattle.use_text.specs.Limits.{max_command, max_lines};
ghost use Rattle.use_text.specs.Tokens.{IsWithin};
ghost use Rattle.use_syntax.specs.Language.{language};

mod calls;
mod check;
mod control;
mod destroy;
mod history;
mod info;
mod limits;
mod links;
mod nested;
mod objects;
mod queries;
mod refusals;
mod rollback;
mod unbuilt;
mod undone;
mod variables;

use calls::{CALLED, DESTROYED_RECEIVER, ENTERED, PERSONS, STAFF};
use control::CONTROL;
use destroy::DESTROYED;
use grammar_core::Grammar;
use history::HISTORY;
use info::INFO;
use links::LINKS;
use model_check::check_model;
use objects::OBJECTS;
use ocl_program::Program;
use queries::QUERIES;
use refusals::REFUSALS;
use rollback::ROLLED_BACK;
use std::alloc::Global;
use std::marker::Brand;
use std::sync::ledger::{Blank, Ledger};
use std::test::Fail;
use unbuilt::UNBUILT;
use use_session::Session;
use use_steps::Steps;
use use_syntax::{Parsed, grammar, read_model};
use use_text::{Bytes, Cut, Fate};
use variables::VARIABLES;

/// A command, and what is written for it.
pub type Line = (&'static str, &'static str);

/// The model of most sessions.
const BOXES: &str = "model Boxes
enum Colour {red, green}
abstract class Thing
attributes
  label : String
end
class Box < Thing
attributes
  size : Integer
  colour : Colour
  inner : Box
  parts : Set(Box)
  twice : Integer = self.size * 2
operations
  bigger(by : Integer) : Integer = self.size + by
  grow(by : Integer)
  begin
    self.size := self.size + by
  end
end
class Shelf < Thing
end
association Holds between
  Shelf[0..1] role shelf
  Box[*] role boxes ordered
end
association Knows between
  Box[*] role fan
  Box[*] role idol
end
constraints
context Box inv positive: size > 0
";

fn language(alloc: Global) -> Result<Grammar, Fail>
    ensures { IfOk result (λ g. g ≡ language) }
{
    Ok(grammar(alloc)?)
}

fn model_read(alloc: Global, g: &Grammar, text: &[u8]) -> Result<Option<Parsed>, Fail>
    requires { g.now ≡ language }
    ensures { IfOk result (λ o. IfSome o (λ p. All (IsWithin (length p.text)) p.tokens)) }
{
    if text.len() > 10_000 {
        return Ok(None);
    }
    match read_model(alloc, g, text) {
        Ok(parsed) => Ok(Some(parsed)),
        Err(_) => Ok(None),
    }
}

fn program(alloc: Global, g: &Grammar, text: &[u8]) -> Result<Option<Program>, Fail>
    requires { g.now ≡ language }
{
    match model_read(alloc, g, text)? {
        None => Ok(None),
        Some(parsed) => match check_model(alloc, &parsed) {
            Ok(program) => Ok(Some(program)),
            Err(_) => Ok(None),
        },
    }
}

// A session over a model.
fn new_session(alloc: Global, model: &[u8]) -> Result<Option<Session>, Fail> {
    let g = language(alloc)?;
    match program(alloc, &g, model)? {
        None => Ok(None),
        Some(program) => Ok(Some(Session::new(alloc, g, program)?)),
    }
}

// What a session writes for a command that begins in a line.
fn answer<L: Ledger>(
    alloc: Global,
    session: &mut Session,
    line: u32,
    text: &[u8],
    steps: &mut Steps<L>,
) -> Result<Vec<u8>, Fail>
    requires text { length text.now ≤ max_command }
    requires line { line ≤ max_lines }
{
    let mut out = Vec::new(alloc);
    let cut = Cut {
        text: Bytes::from_slice(alloc, text)?,
        first_line: line,
        fate: Fate::Whole,
    };
    session.command(&cut, &mut out, steps)?;
    Ok(out)
}

fn answer_if_short<L: Ledger>(
    alloc: Global,
    session: &mut Session,
    line: u32,
    text: &[u8],
    steps: &mut Steps<L>,
) -> Result<Vec<u8>, Fail>
    requires { line ≤ max_lines }
{
    if text.len() > 65_536 {
        return Ok(Vec::new(alloc));
    }
    answer(alloc, session, line, text, steps)
}

// What a session writes for a command; nothing, where it is longer than a command may be, or begins
// past line 1,000,000.
fn written<L: Ledger>(
    alloc: Global,
    session: &mut Session,
    line: u32,
    text: &[u8],
    steps: &mut Steps<L>,
) -> Result<Vec<u8>, Fail> {
    if line > 1_000_000 {
        return Ok(Vec::new(alloc));
    }
    answer_if_short(alloc, session, line, text, steps)
}

// The first line of a table that a session answers otherwise, if there is one.
fn wrong_line_of<L: Ledger>(
    alloc: Global,
    session: &mut Session,
    table: &[Line],
    steps: &mut Steps<L>,
) -> Result<Option<u32>, Fail> {
    let mut line = 0u32;
    'lines: for (text, answer) in table {
        line = line.saturating_add(1);
        let out = written(alloc, session, line, text.as_bytes(), steps)?;
        if out.as_slice() != answer.as_bytes() {
            return Ok(Some(line));
        }
    }
    Ok(None)
}

// The first line of a table that a new session over a model answers otherwise, if there is one.
fn wrong_line<L: Ledger>(
    alloc: Global,
    model: &[u8],
    table: &[Line],
    blank: Blank,
) -> Result<Option<u32>, Fail>
    requires name { blank.name ≡ L.name }
    requires parts { blank.parts ≡ L.parts }
    requires some { 0 < blank.parts }
{
    let mut steps = Steps::<L>::new(blank);
    match new_session(alloc, model)? {
        None => Ok(Some(0)),
        Some(mut session) => wrong_line_of(alloc, &mut session, table, &mut steps),
    }
}

#[test]
fn objects_come_and_keep_what_is_stored_in_them(rt: HostRuntime) -> Result<(), Fail> {
    assert_eq!(rt;
        wrong_line::<Brand>(rt.alloc(), BOXES.as_bytes(), OBJECTS, Blank::new(1))?,
        None
    );
    Ok(())
}

#[test]
fn links_are_walked_from_both_ends(rt: HostRuntime) -> Result<(), Fail> {
    assert_eq!(rt;
        wrong_line::<Brand>(rt.alloc(), BOXES.as_bytes(), LINKS, Blank::new(1))?,
        None
    );
    Ok(())
}

#[test]
fn a_destroyed_object_goes_out_of_all_that_holds_it(rt: HostRuntime) -> Result<(), Fail> {
    assert_eq!(rt;
        wrong_line::<Brand>(rt.alloc(), BOXES.as_bytes(), DESTROYED, Blank::new(1))?,
        None
    );
    Ok(())
}

#[test]
fn variables_take_the_types_of_their_values(rt: HostRuntime) -> Result<(), Fail> {
    assert_eq!(rt;
        wrong_line::<Brand>(rt.alloc(), BOXES.as_bytes(), VARIABLES, Blank::new(1))?,
        None
    );
    Ok(())
}

#[test]
fn branches_and_loops_are_carried_out(rt: HostRuntime) -> Result<(), Fail> {
    assert_eq!(rt;
        wrong_line::<Brand>(rt.alloc(), BOXES.as_bytes(), CONTROL, Blank::new(1))?,
        None
    );
    Ok(())
}

#[test]
fn a_refused_list_of_statements_leaves_no_trace(rt: HostRuntime) -> Result<(), Fail> {
    assert_eq!(rt;
        wrong_line::<Brand>(rt.alloc(), BOXES.as_bytes(), ROLLED_BACK, Blank::new(1))?,
        None
    );
    Ok(())
}

#[test]
fn commands_are_taken_back_and_carried_out_again(rt: HostRuntime) -> Result<(), Fail> {
    assert_eq!(rt;
        wrong_line::<Brand>(rt.alloc(), BOXES.as_bytes(), HISTORY, Blank::new(1))?,
        None
    );
    Ok(())
}

#[test]
fn classes_the_model_and_the_state_are_told(rt: HostRuntime) -> Result<(), Fail> {
    assert_eq!(rt;
        wrong_line::<Brand>(rt.alloc(), BOXES.as_bytes(), INFO, Blank::new(1))?,
        None
    );
    Ok(())
}

#[test]
fn queries_are_answered_with_value_and_type(rt: HostRuntime) -> Result<(), Fail> {
    assert_eq!(rt;
        wrong_line::<Brand>(rt.alloc(), BOXES.as_bytes(), QUERIES, Blank::new(1))?,
        None
    );
    Ok(())
}

#[test]
fn each_rule_refuses_a_command(rt: HostRuntime) -> Result<(), Fail> {
    assert_eq!(rt;
        wrong_line::<Brand>(rt.alloc(), BOXES.as_bytes(), REFUSALS, Blank::new(1))?,
        None
    );
    Ok(())
}

#[test]
fn calls_check_their_contracts(rt: HostRuntime) -> Result<(), Fail> {
    assert_eq!(rt;
        wrong_line::<Brand>(rt.alloc(), STAFF.as_bytes(), CALLED, Blank::new(1))?,
        None
    );
    Ok(())
}

#[test]
fn calls_are_entered_and_left(rt: HostRuntime) -> Result<(), Fail> {
    assert_eq!(rt;
        wrong_line::<Brand>(rt.alloc(), STAFF.as_bytes(), ENTERED, Blank::new(1))?,
        None
    );
    Ok(())
}

#[test]
fn a_call_is_left_though_its_receiver_is_destroyed(rt: HostRuntime) -> Result<(), Fail> {
    assert_eq!(rt;
        wrong_line::<Brand>(
            rt.alloc(),
            PERSONS.as_bytes(),
            DESTROYED_RECEIVER,
            Blank::new(1)
        )?,
        None
    );
    Ok(())
}

#[test]
fn what_is_not_built_is_told_behind_names_and_types(rt: HostRuntime) -> Result<(), Fail> {
    assert_eq!(rt;
        wrong_line::<Brand>(rt.alloc(), BOXES.as_bytes(), UNBUILT, Blank::new(1))?,
        None
    );
    Ok(())
}
