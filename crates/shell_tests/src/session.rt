ghost use Rattle.std.specs.Prelude.{◌≡◌, ◌<◌, ◌≤◌, IfOk, length};
ghost use Rattle.use_text.specs.Limits.{max_command};
ghost use Rattle.use_syntax.specs.Language.{language};

use grammar_core::Grammar;
use model_check::check_model;
use ocl_program::Program;
use std::alloc::Global;
use std::marker::Brand;
use std::sync::ledger::{Blank, Ledger};
use std::test::Fail;
use use_session::{Session, Turn};
use use_steps::Steps;
use use_syntax::{grammar, read_model};
use use_text::{Bytes, Code, Cut, Fate};

fn language(alloc: Global) -> Result<Grammar, Fail>
    ensures { IfOk result (λ g. g ≡ language) }
{
    Ok(grammar(alloc)?)
}

fn program(alloc: Global, g: &Grammar) -> Result<Option<Program>, Fail>
    requires { g.now ≡ language }
{
    match read_model(alloc, g, b"model E") {
        Err(_) => Ok(None),
        Ok(parsed) => match check_model(alloc, &parsed) {
            Err(_) => Ok(None),
            Ok(program) => Ok(Some(program)),
        },
    }
}

fn new_session(alloc: Global) -> Result<Option<Session>, Fail> {
    let g = language(alloc)?;
    match program(alloc, &g)? {
        None => Ok(None),
        Some(program) => Ok(Some(Session::new(alloc, g, program)?)),
    }
}

// What a session writes for a command whose first line is 7, and how the command ends.
fn answer<L: Ledger>(
    alloc: Global,
    session: &mut Session,
    text: &[u8],
    fate: Fate,
    steps: &mut Steps<L>,
) -> Result<(Vec<u8>, Turn), Fail>
    requires { length text.now ≤ max_command }
{
    let mut out = Vec::new(alloc);
    let cut = Cut {
        text: Bytes::from_slice(alloc, text)?,
        first_line: 7,
        fate,
    };
    let turn = session.command(&cut, &mut out, steps)?;
    Ok((out, turn))
}

// The same of a new session.
fn answered<L: Ledger>(
    alloc: Global,
    text: &[u8],
    fate: Fate,
    blank: Blank,
) -> Result<(Vec<u8>, Turn), Fail>
    requires name { blank.name ≡ L.name }
    requires parts { blank.parts ≡ L.parts }
    requires some { 0 < blank.parts }
    requires short { length text.now ≤ max_command }
{
    let mut steps = Steps::<L>::new(blank);
    match new_session(alloc)? {
        None => Ok((Vec::new(alloc), Turn::Refused(Code::F1))),
        Some(mut session) => answer(alloc, &mut session, text, fate, &mut steps),
    }
}

const ANSWERS: [(&str, &str); 14] = [
    ("? 1", "-> 1 : Integer\n"),
    ("? 1 + 2", "-> 3 : Integer\n"),
    (" ?1+2 +3 -- three numbers\r", "-> 6 : Integer\n"),
    (
        "? 170141183460469231731687303715884105727 + 1",
        "-> invalid : Integer\n",
    ),
    ("-- a comment", ""),
    ("", ""),
    (
        "? 170141183460469231731687303715884105728",
        "refused L3 at 7:3: number past the range\n",
    ),
    ("? 1 * 2", "-> 2 : Integer\n"),
    ("  ? 1 +", "refused S1 at 7:8: unexpected token\n"),
    ("? 1 2", "refused S1 at 7:5: unexpected token\n"),
    (
        "\n check",
        "structure: OK\n0 invariants, 0 evaluated, 0 not OK\n",
    ),
    (
        "? 'x",
        "refused L4 at 7:3: string or comment is not closed\n",
    ),
    ("\n open 'a.cmd", ""),
    (
        "opened 'a.cmd",
        "refused L4 at 7:8: string or comment is not closed\n",
    ),
];

#[test]
fn commands_are_answered(rt: HostRuntime) -> Result<(), Fail> {
    for (text, answer) in ANSWERS {
        let bytes = text.as_bytes();
        if bytes.len() > 65536 {
            continue;
        }
        let (out, _) = answered::<Brand>(rt.alloc(), bytes, Fate::Whole, Blank::new(1))?;
        assert_eq!(rt; out.as_slice(), answer.as_bytes());
    }
    Ok(())
}

#[test]
fn a_command_that_was_not_cut_out_whole_is_refused(rt: HostRuntime) -> Result<(), Fail> {
    let (out, turn) = answered::<Brand>(rt.alloc(), b"", Fate::TooLong, Blank::new(1))?;
    assert_eq!(rt;
        out.as_slice(),
        b"refused K1 at 7:1: command is too long\n".as_slice()
    );
    assert_eq!(rt; turn, Turn::Refused(Code::K1));
    let (out, turn) = answered::<Brand>(rt.alloc(), b"? 1", Fate::Unfinished, Blank::new(1))?;
    assert_eq!(rt;
        out.as_slice(),
        b"refused K2 at 7:1: block is not closed\n".as_slice()
    );
    assert_eq!(rt; turn, Turn::Refused(Code::K2));
    Ok(())
}

// How a command ended, in a word.
fn word(turn: &Turn) -> &'static str {
    match turn {
        Turn::Quiet => "quiet",
        Turn::Refused(_) => "refused",
        Turn::CheckFailed => "failed",
        Turn::Fetch { .. } => "fetch",
        Turn::Quit => "quit",
    }
}

const TURNS: [(&str, &str); 10] = [
    ("", "quiet"),
    ("? 1", "quiet"),
    ("check", "quiet"),
    ("quit", "quit"),
    (" exit -- ends the run", "quit"),
    ("quit now", "refused"),
    ("open a", "fetch"),
    ("open ''", "refused"),
    ("undo", "refused"),
    ("view 1", "refused"),
];

#[test]
fn a_command_tells_how_it_ended(rt: HostRuntime) -> Result<(), Fail> {
    for (text, wanted) in TURNS {
        let bytes = text.as_bytes();
        if bytes.len() > 65536 {
            continue;
        }
        let (_, turn) = answered::<Brand>(rt.alloc(), bytes, Fate::Whole, Blank::new(1))?;
        assert_eq!(rt; word(&turn), wanted, "{text}");
    }
    Ok(())
}

// The file that a command asks for, and the place at which that is.
fn asked(turn: &Turn) -> Option<(&str, u32, u32)> {
    match turn {
        Turn::Fetch { name, place } => Some((name.as_str(), place.line, place.col)),
        _ => None,
    }
}

const FILES: [(&str, &str, u32, u32); 8] = [
    ("open a", "a", 7, 1),
    ("\topen  a b \r", "a b", 7, 2),
    ("\n \n  open\n'a b'\n", "a b", 9, 3),
    ("open' a '", " a ", 7, 1),
    ("open 'a", "'a", 7, 1),
    ("open '", "'", 7, 1),
    ("open a -- b", "a -- b", 7, 1),
    ("open.", ".", 7, 1),
];

#[test]
fn a_file_is_asked_for_by_its_name(rt: HostRuntime) -> Result<(), Fail> {
    for (text, name, line, col) in FILES {
        let bytes = text.as_bytes();
        if bytes.len() > 65536 {
            continue;
        }
        let (_, turn) = answered::<Brand>(rt.alloc(), bytes, Fate::Whole, Blank::new(1))?;
        assert_eq!(rt; asked(&turn), Some((name, line, col)), "{text}");
    }
    Ok(())
}

// What a session writes for `open` and a name of so many letters.
fn opened_name<L: Ledger>(alloc: Global, count: u32, blank: Blank) -> Result<Vec<u8>, Fail>
    requires name { blank.name ≡ L.name }
    requires parts { blank.parts ≡ L.parts }
    requires some { 0 < blank.parts }
{
    let mut text = Vec::from_slice(alloc, b"open ")?;
    'letters: for _ in 0..count {
        text.push(b'a')?;
    }
    if text.len() > 65536 {
        return Ok(Vec::new(alloc));
    }
    let (out, _) = answered::<L>(alloc, &text, Fate::Whole, blank)?;
    Ok(out)
}

#[test]
fn the_name_of_a_file_is_a_text_of_at_most_255_bytes(rt: HostRuntime) -> Result<(), Fail> {
    let alloc = rt.alloc();
    let out = opened_name::<Brand>(alloc, 255, Blank::new(1))?;
    assert_eq!(rt; out.as_slice(), b"".as_slice());
    let out = opened_name::<Brand>(alloc, 256, Blank::new(1))?;
    assert_eq!(rt;
        out.as_slice(),
        b"refused L5 at 7:1: name is too long\n".as_slice()
    );
    let (out, _) = answered::<Brand>(alloc, b"open a\xFF", Fate::Whole, Blank::new(1))?;
    assert_eq!(rt;
        out.as_slice(),
        b"refused L1 at 7:1: text is not UTF-8\n".as_slice()
    );
    Ok(())
}
