ghost use Rattle.std.specs.Prelude.{◌≡◌, ◌<◌};

use super::{new_session, written};
use std::alloc::Global;
use std::marker::Brand;
use std::sync::ledger::{Blank, Ledger};
use std::test::Fail;
use use_session::Session;
use use_steps::Steps;

// A model whose operation number `count` calls the one before it, and so on down to number 0.
fn chain(alloc: Global, count: u32) -> Result<Vec<u8>, Fail> {
    let mut text = Vec::from_slice(
        alloc,
        b"model Chain\nclass Link\noperations\nc0() begin end\n",
    )?;
    'operations: for number in 0..count {
        let next = number.saturating_add(1);
        let operation = format!(in alloc; "c{next}() begin self.c{number}() end\n")?;
        text.extend_from_slice(operation.as_bytes())?;
    }
    text.extend_from_slice(b"end\n")?;
    Ok(text)
}

fn answers_of<L: Ledger>(
    alloc: Global,
    session: &mut Session,
    count: u32,
    steps: &mut Steps<L>,
) -> Result<Vec<u8>, Fail> {
    let mut all = written(alloc, session, 1, b"!create a : Link", steps)?;
    let call = format!(in alloc; "!a.c{count}()")?;
    let out = written(alloc, session, 2, call.as_bytes(), steps)?;
    all.extend_from_slice(&out)?;
    Ok(all)
}

// What a session writes for a call that calls, and so on, so many times.
fn called<L: Ledger>(alloc: Global, count: u32, blank: Blank) -> Result<Vec<u8>, Fail>
    requires name { blank.name ≡ L.name }
    requires parts { blank.parts ≡ L.parts }
    requires some { 0 < blank.parts }
{
    let mut steps = Steps::<L>::new(blank);
    let model = chain(alloc, count)?;
    match new_session(alloc, &model)? {
        None => Ok(Vec::from_slice(alloc, b"no session")?),
        Some(mut session) => answers_of(alloc, &mut session, count, &mut steps),
    }
}

#[test]
fn bodies_of_calls_nest_to_level_64(rt: HostRuntime) -> Result<(), Fail> {
    let alloc = rt.alloc();
    let out = called::<Brand>(alloc, 62, Blank::new(1))?;
    assert_eq!(rt; out.as_slice(), b"".as_slice());
    let out = called::<Brand>(alloc, 63, Blank::new(1))?;
    assert_eq!(rt;
        out.as_slice(),
        b"refused B3 at 2:2: nesting budget is spent\n".as_slice()
    );
    Ok(())
}
