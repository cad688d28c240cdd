ghost use Rattle.std.specs.Prelude.{◌≡◌, ◌<◌};

use super::{BOXES, new_session, written};
use std::alloc::Global;
use std::marker::Brand;
use std::sync::ledger::{Blank, Ledger};
use std::test::Fail;
use use_session::Session;
use use_steps::Steps;

// The first answer that is not empty, of a command that is given so many times.
fn first_answer<L: Ledger>(
    alloc: Global,
    session: &mut Session,
    times: u32,
    text: &[u8],
    steps: &mut Steps<L>,
) -> Result<Vec<u8>, Fail> {
    'times: for _ in 0..times {
        let out = written(alloc, session, 1, text, steps)?;
        if !out.is_empty() {
            return Ok(out);
        }
    }
    Ok(Vec::new(alloc))
}

fn last_answer_of<L: Ledger>(
    alloc: Global,
    session: &mut Session,
    commands: &[(u32, &[u8])],
    last: &[u8],
    steps: &mut Steps<L>,
) -> Result<Vec<u8>, Fail> {
    'commands: for (times, text) in commands {
        let out = first_answer(alloc, session, *times, text, steps)?;
        if !out.is_empty() {
            return Ok(out);
        }
    }
    written(alloc, session, 7, last, steps)
}

// What a session writes for some commands, each given so many times, and then for one more.
fn last_answer<L: Ledger>(
    alloc: Global,
    commands: &[(u32, &[u8])],
    last: &[u8],
    blank: Blank,
) -> Result<Vec<u8>, Fail>
    requires name { blank.name ≡ L.name }
    requires parts { blank.parts ≡ L.parts }
    requires some { 0 < blank.parts }
{
    let mut steps = Steps::<L>::new(blank);
    match new_session(alloc, BOXES.as_bytes())? {
        None => Ok(Vec::new(alloc)),
        Some(mut session) => last_answer_of(alloc, &mut session, commands, last, &mut steps),
    }
}

fn add_times(text: &mut Vec<u8>, times: u32, part: &[u8]) -> Result<(), Fail> {
    'times: for _ in 0..times {
        text.extend_from_slice(part)?;
    }
    Ok(())
}

// `!`, so many times an opening, a text, and as often a closing.
fn nested(
    alloc: Global,
    begin: &[u8],
    times: u32,
    open: &[u8],
    inner: &[u8],
    close: &[u8],
) -> Result<Vec<u8>, Fail> {
    let mut text = begin.to_vec(alloc)?;
    add_times(&mut text, times, open)?;
    text.extend_from_slice(inner)?;
    add_times(&mut text, times, close)?;
    Ok(text)
}

const SHELVES: &[u8] = b"!for i in Sequence{1..10000} do new Shelf end";

const NOTHING_TO_UNDO: &[u8] = b"refused U1 at 7:1: nothing to undo\n";

#[test]
fn the_last_thousand_commands_are_taken_back(rt: HostRuntime) -> Result<(), Fail> {
    let alloc = rt.alloc();
    let most: [(u32, &[u8]); 2] = [(1001, b"!x := 1"), (999, b"undo")];
    let out = last_answer::<Brand>(alloc, &most, b"undo", Blank::new(1))?;
    assert_eq!(rt; out.as_slice(), b"".as_slice());
    let more: [(u32, &[u8]); 2] = [(1001, b"!x := 1"), (1000, b"undo")];
    let out = last_answer::<Brand>(alloc, &more, b"undo", Blank::new(1))?;
    assert_eq!(rt; out.as_slice(), NOTHING_TO_UNDO);
    Ok(())
}

#[test]
fn there_are_ten_thousand_objects(rt: HostRuntime) -> Result<(), Fail> {
    let alloc = rt.alloc();
    let out = last_answer::<Brand>(
        alloc,
        &[(1, SHELVES)],
        b"? Shelf.allInstances()->size()",
        Blank::new(1),
    )?;
    assert_eq!(rt; out.as_slice(), b"-> 10000 : Integer\n".as_slice());
    let out = last_answer::<Brand>(alloc, &[(1, SHELVES)], b"!new Shelf", Blank::new(1))?;
    assert_eq!(rt;
        out.as_slice(),
        b"refused X6 at 7:2: too many objects\n".as_slice()
    );
    Ok(())
}

#[test]
fn there_are_fifty_thousand_links(rt: HostRuntime) -> Result<(), Fail> {
    let alloc = rt.alloc();
    let link: &[u8] =
        b"!for a in Box.allInstances()->select(b | b.fan->isEmpty())->asSequence()->subSequence(1, 50) do for b in Box.allInstances()->asSequence()->subSequence(1, 200) do insert (b, a) into Knows end end";
    let commands: [(u32, &[u8]); 2] = [
        (1, b"!for i in Sequence{1..250} do new Box end"),
        (5, link),
    ];
    let last = b"!b := Box.allInstances()->asSequence()->last(); insert (b, b) into Knows";
    let out = last_answer::<Brand>(alloc, &commands, last, Blank::new(1))?;
    assert_eq!(rt;
        out.as_slice(),
        b"refused X7 at 7:49: too many links\n".as_slice()
    );
    Ok(())
}

const TEXT: &[u8] = b"!x := 'abcdefghij'; for i in Sequence{1..10} do x := x.concat(x) end";

const LABELS: &[u8] = b"!for i in Sequence{1..4} do b := new Box; b.label := x end";

#[test]
fn a_state_weighs_at_most_a_million(rt: HostRuntime) -> Result<(), Fail> {
    let alloc = rt.alloc();
    let commands: [(u32, &[u8]); 2] = [(1, TEXT), (24, LABELS)];
    let count = b"? Box.allInstances()->collect(label.size())->sum()";
    let out = last_answer::<Brand>(alloc, &commands, count, Blank::new(1))?;
    assert_eq!(rt; out.as_slice(), b"-> 983040 : Integer\n".as_slice());
    let out = last_answer::<Brand>(alloc, &commands, LABELS, Blank::new(1))?;
    assert_eq!(rt;
        out.as_slice(),
        b"refused X8 at 7:43: state is too large\n".as_slice()
    );
    Ok(())
}

#[test]
fn blocks_nest_sixty_three_deep_in_the_outermost(rt: HostRuntime) -> Result<(), Fail> {
    let alloc = rt.alloc();
    let most = nested(alloc, b"!", 63, b"if true then ", b"x := 1", b" end")?;
    let out = last_answer::<Brand>(alloc, &[], &most, Blank::new(1))?;
    assert_eq!(rt; out.as_slice(), b"".as_slice());
    let more = nested(alloc, b"!", 64, b"if true then ", b"x := 1", b" end")?;
    let out = last_answer::<Brand>(alloc, &[], &more, Blank::new(1))?;
    assert_eq!(rt;
        out.as_slice(),
        b"refused B3 at 7:821: nesting budget is spent\n".as_slice()
    );
    Ok(())
}

#[test]
fn expressions_nest_256_deep(rt: HostRuntime) -> Result<(), Fail> {
    let alloc = rt.alloc();
    let most = nested(alloc, b"? 1", 255, b"+1", b"", b"")?;
    let out = last_answer::<Brand>(alloc, &[], &most, Blank::new(1))?;
    assert_eq!(rt; out.as_slice(), b"-> 256 : Integer\n".as_slice());
    let more = nested(alloc, b"? 1", 256, b"+1", b"", b"")?;
    let out = last_answer::<Brand>(alloc, &[], &more, Blank::new(1))?;
    assert_eq!(rt;
        out.as_slice(),
        b"refused T16 at 7:3: expression is too deep\n".as_slice()
    );
    Ok(())
}

#[test]
fn sixty_four_calls_are_open_at_most(rt: HostRuntime) -> Result<(), Fail> {
    let alloc = rt.alloc();
    let commands: [(u32, &[u8]); 2] = [
        (1, b"!b := new Box; b.size := 1"),
        (64, b"openter b grow(1)"),
    ];
    let out = last_answer::<Brand>(alloc, &commands, b"? self.size + by", Blank::new(1))?;
    assert_eq!(rt; out.as_slice(), b"-> 2 : Integer\n".as_slice());
    let out = last_answer::<Brand>(alloc, &commands, b"openter b grow(1)", Blank::new(1))?;
    assert_eq!(rt;
        out.as_slice(),
        b"refused C4 at 7:1: too many open operations\n".as_slice()
    );
    Ok(())
}
