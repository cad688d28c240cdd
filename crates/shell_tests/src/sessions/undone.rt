ghost use Rattle.std.specs.Prelude.{◌≡◌, ◌<◌};

use super::calls::STAFF;
use super::{new_session, written};
use std::alloc::Global;
use std::marker::Brand;
use std::sync::ledger::{Blank, Ledger};
use std::test::Fail;
use use_session::Session;
use use_steps::Steps;

// Commands that enter three calls, one in the other, change what the contracts look at, and leave them.
const ENTRIES: [&[u8]; 13] = [
    b"!create p : Emp; p.pay := 10",
    b"!openter p raise(5)",
    b"!p.pay := 11",
    b"!openter p raise(1)",
    b"!p.pay := 12; self.boss := self",
    b"!openter p double()",
    b"!self.pay := 24",
    b"!opexit 24",
    b"!create q : Emp; q.boss := p; by2 := by",
    b"!self.raise(4)",
    b"!opexit",
    b"!p.pay := 15; destroy q",
    b"!opexit",
];

// What shows the state, the open calls and the state at the entry of each.
const ASKED: [&[u8]; 9] = [
    b"info state",
    b"info vars",
    b"info opstack",
    b"? Emp.allInstances()->collect(e | e.pay)",
    b"? by",
    b"!opexit 24",
    b"!opexit",
    b"!opexit",
    b"info opstack",
];

// What a session writes for some commands.
fn answers<L: Ledger>(
    alloc: Global,
    session: &mut Session,
    commands: &[&[u8]],
    steps: &mut Steps<L>,
) -> Result<Vec<u8>, Fail> {
    let mut all = Vec::new(alloc);
    'commands: for text in commands {
        let out = written(alloc, session, 1, text, steps)?;
        all.extend_from_slice(&out)?;
    }
    Ok(all)
}

// The same for one command that is given so many times.
fn repeated<L: Ledger>(
    alloc: Global,
    session: &mut Session,
    times: usize,
    text: &[u8],
    steps: &mut Steps<L>,
) -> Result<Vec<u8>, Fail> {
    let mut all = Vec::new(alloc);
    'times: for _ in 0..times {
        let out = written(alloc, session, 1, text, steps)?;
        all.extend_from_slice(&out)?;
    }
    Ok(all)
}

fn asked_of<L: Ledger>(
    alloc: Global,
    session: &mut Session,
    commands: &[&[u8]],
    undone: usize,
    redone: usize,
    steps: &mut Steps<L>,
) -> Result<Vec<u8>, Fail> {
    answers(alloc, session, commands, steps)?;
    let mut all = repeated(alloc, session, undone, b"undo", steps)?;
    let again = repeated(alloc, session, redone, b"redo", steps)?;
    all.extend_from_slice(&again)?;
    let asked = answers(alloc, session, &ASKED, steps)?;
    all.extend_from_slice(&asked)?;
    Ok(all)
}

// What a session shows that carried out some commands, took the last ones back, and carried out
// some of those again.
fn asked<L: Ledger>(
    alloc: Global,
    commands: &[&[u8]],
    undone: usize,
    redone: usize,
    blank: Blank,
) -> Result<Vec<u8>, Fail>
    requires name { blank.name ≡ L.name }
    requires parts { blank.parts ≡ L.parts }
    requires some { 0 < blank.parts }
{
    let mut steps = Steps::<L>::new(blank);
    match new_session(alloc, STAFF.as_bytes())? {
        None => Ok(Vec::from_slice(alloc, b"no session")?),
        Some(mut session) => asked_of(alloc, &mut session, commands, undone, redone, &mut steps),
    }
}

const SHOWN: &[u8] = b"objects 1
p : Emp
  name = null
  pay = 15
  boss = p
links 0
by2 : Integer = 1
no open operation
-> Bag{15} : Bag(Integer)
refused N1 at 1:3: unknown name
refused C3 at 1:2: no operation is open
refused C3 at 1:2: no operation is open
refused C3 at 1:2: no operation is open
no open operation
";

#[test]
fn commands_that_were_taken_back_never_were(rt: HostRuntime) -> Result<(), Fail> {
    let alloc = rt.alloc();
    for kept in 0..13usize {
        let undone = ENTRIES.len() - kept;
        let back = asked::<Brand>(alloc, &ENTRIES, undone, 0, Blank::new(1))?;
        let never = asked::<Brand>(alloc, &ENTRIES[..kept], 0, 0, Blank::new(1))?;
        assert_eq!(rt; back.as_slice(), never.as_slice(), "{kept}");
    }
    Ok(())
}

#[test]
fn commands_that_were_carried_out_again_were_never_taken_back(rt: HostRuntime) -> Result<(), Fail> {
    let alloc = rt.alloc();
    for undone in 0..14usize {
        let again = asked::<Brand>(alloc, &ENTRIES, undone, undone, Blank::new(1))?;
        assert_eq!(rt; again.as_slice(), SHOWN, "{undone}");
    }
    Ok(())
}
