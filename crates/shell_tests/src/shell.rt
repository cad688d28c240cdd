ghost use Rattle.std.specs.Prelude.{◌≡◌, ◌<◌, None};

mod files;
mod models;
mod strict;
mod unread;
mod words;

use std::alloc::Global;
use std::marker::Brand;
use std::sync::ledger::{Blank, Ledger};
use std::test::Fail;
use use_io::{CalmIn, CalmOut, FaultyIn, MemShelf, Sink, SinkFault};
use use_shell::*;
use use_steps::Steps;

/// A sink that fails at each call.
#[derive(Drop)]
struct BrokenOut {
    faults: u64,
}

impl Sink for BrokenOut {
    ghost written = { λ s. None };

    ghost faults = { λ s. s.faults };

    fn put(&mut self, _bytes: &[u8]) -> Result<usize, SinkFault> {
        self.faults = self.faults.saturating_add(1);
        Err(SinkFault::Failed)
    }
}

// The words `usesh` and these.
fn words_of(alloc: Global, more: &[&str]) -> Result<Vec<String>, Fail> {
    let mut words = vec![in alloc; String::from_str(alloc, "usesh")?]?;
    for word in more {
        words.push(String::from_str(alloc, word)?)?;
    }
    Ok(words)
}

// A shelf whose file M.use holds this model.
fn shelf_of(alloc: Global, model: &[u8]) -> Result<MemShelf, Fail> {
    let name = String::from_str(alloc, "M.use")?;
    let bytes = model.to_vec(alloc)?;
    Ok(MemShelf::new(vec![in alloc; (name, bytes)]?))
}

// What a run over held files and an input in pieces writes, and how it ends.
fn played_over<L: Ledger>(
    alloc: Global,
    words: &[String],
    mut shelf: MemShelf,
    input: Vec<u8>,
    piece: usize,
    blank: Blank,
) -> Result<(Vec<u8>, Status), Fail>
    requires name { blank.name ≡ L.name }
    requires parts { blank.parts ≡ L.parts }
    requires some { 0 < blank.parts }
    requires piece { 0 < piece }
{
    let mut steps = Steps::<L>::new(blank);
    let mut source = CalmIn::new(input, piece);
    let mut sink = CalmOut::new(alloc);
    let status = run(alloc, words, &mut shelf, &mut source, &mut sink, &mut steps);
    Ok((sink.written().to_vec(alloc)?, status))
}

// What a run over a held model and an input in pieces writes, and how it ends.
fn played<L: Ledger>(
    alloc: Global,
    more: &[&str],
    model: &[u8],
    input: Vec<u8>,
    piece: usize,
    blank: Blank,
) -> Result<(Vec<u8>, Status), Fail>
    requires name { blank.name ≡ L.name }
    requires parts { blank.parts ≡ L.parts }
    requires some { 0 < blank.parts }
    requires piece { 0 < piece }
{
    let shelf = shelf_of(alloc, model)?;
    let words = words_of(alloc, more)?;
    played_over::<L>(alloc, &words, shelf, input, piece, blank)
}

struct Run {
    words: &'static [&'static str],
    model: &'static str,
    input: &'static str,
    output: &'static str,
    status: Status,
}

const USAGE: &str = "usage: usesh [--echo] [--strict] MODEL | usesh --sample N\n";

const RUNS: [Run; 11] = [
    Run {
        words: &["M.use"],
        model: "model E\n",
        input: "? 1 + 2",
        output: "-> 3 : Integer\n",
        status: Status::Done,
    },
    Run {
        words: &["M.use"],
        model: " model check -- a name\n",
        input: "\n? 1\n \t\r\n? 1 * 2\n-- a comment\n\\\n? 1 +\n\n2\n.\n? 4",
        output: "-> 1 : Integer\n-> 2 : Integer\n-> 3 : Integer\n-> 4 : Integer\n",
        status: Status::Done,
    },
    Run {
        words: &["M.use"],
        model: "model E",
        input: "",
        output: "",
        status: Status::Done,
    },
    Run {
        words: &["M.use"],
        model: "model E",
        input: "\\\n? 1",
        output: "refused K2 at 2:1: block is not closed\n",
        status: Status::Done,
    },
    Run {
        words: &["none.use"],
        model: "model E",
        input: "? 1",
        output: "refused F1 at 0:0: no such file\n",
        status: Status::ModelRefused,
    },
    Run {
        words: &["M.use"],
        model: "",
        input: "? 1",
        output: "refused S1 at 1:1: unexpected token\n",
        status: Status::ModelRefused,
    },
    Run {
        words: &["M.use"],
        model: "\n model C class A < A end",
        input: "? 1",
        output: "refused M4 at 2:16: inheritance has a cycle\n",
        status: Status::ModelRefused,
    },
    Run {
        words: &["M.use"],
        model: "model E $",
        input: "? 1",
        output: "refused L2 at 1:9: no token begins here\n",
        status: Status::ModelRefused,
    },
    Run {
        words: &[],
        model: "model E",
        input: "? 1",
        output: USAGE,
        status: Status::Usage,
    },
    Run {
        words: &["--echo"],
        model: "model E",
        input: "? 1",
        output: USAGE,
        status: Status::Usage,
    },
    Run {
        words: &["M.use", "M.use"],
        model: "model E",
        input: "? 1",
        output: USAGE,
        status: Status::Usage,
    },
];

#[test]
fn runs_write_their_output_in_pieces_of_any_size(rt: HostRuntime) -> Result<(), Fail> {
    let alloc = rt.alloc();
    for r in RUNS.iter() {
        let input = r.input.as_bytes();
        for piece in 1..input.len() + 2 {
            let (out, status) = played::<Brand>(
                alloc,
                r.words,
                r.model.as_bytes(),
                input.to_vec(alloc)?,
                piece,
                Blank::new(1),
            )?;
            assert_eq!(rt; out.as_slice(), r.output.as_bytes(), "in pieces of {piece}");
            assert_eq!(rt; status, r.status, "in pieces of {piece}");
        }
    }
    Ok(())
}

#[test]
fn a_line_of_16_mib_is_one_command(rt: HostRuntime) -> Result<(), Fail> {
    let alloc = rt.alloc();
    let line = vec![in alloc; b'?'; 16_777_216]?;
    let (out, status) = played::<Brand>(alloc, &["M.use"], b"model E", line, 4096, Blank::new(1))?;
    assert_eq!(rt;
        out.as_slice(),
        b"refused K1 at 1:1: command is too long\n".as_slice()
    );
    assert_eq!(rt; status, Status::Done);
    Ok(())
}

#[test]
fn an_input_past_the_limit_answers_what_ended_within_it(rt: HostRuntime) -> Result<(), Fail> {
    let alloc = rt.alloc();
    let mut input = Vec::from_slice(alloc, b"? 1\n")?;
    for _ in 0..16_777_210u32 {
        input.push(b'\n')?;
    }
    input.extend_from_slice(b"? 2\n")?;
    let (out, status) = played::<Brand>(alloc, &["M.use"], b"model E", input, 4096, Blank::new(1))?;
    assert_eq!(rt; out.as_slice(), b"-> 1 : Integer\n".as_slice());
    assert_eq!(rt; status, Status::TooLong);
    assert_eq!(rt; status.number(), 6);
    Ok(())
}

#[test]
fn a_command_that_ends_the_run_ends_its_input(rt: HostRuntime) -> Result<(), Fail> {
    let alloc = rt.alloc();
    let mut input = Vec::from_slice(alloc, b"? 1\nquit\n")?;
    for _ in 0..16_777_216u32 {
        input.push(b'\n')?;
    }
    let (out, status) = played::<Brand>(alloc, &["M.use"], b"model E", input, 4096, Blank::new(1))?;
    assert_eq!(rt; out.as_slice(), b"-> 1 : Integer\n".as_slice());
    assert_eq!(rt; status, Status::Done);
    Ok(())
}

#[test]
fn a_command_that_is_too_long_is_not_shown(rt: HostRuntime) -> Result<(), Fail> {
    let alloc = rt.alloc();
    let mut input = vec![in alloc; b'?'; 65_537]?;
    input.extend_from_slice(b"\n? 2\n")?;
    let words = ["--echo", "--strict", "M.use"];
    let (out, status) = played::<Brand>(alloc, &words, b"model E", input, 4096, Blank::new(1))?;
    assert_eq!(rt;
        out.as_slice(),
        b"refused K1 at 1:1: command is too long\nuse> ? 2\n-> 2 : Integer\n".as_slice()
    );
    assert_eq!(rt; status, Status::Strict);
    Ok(())
}

// What a run over a source in pieces of 4 bytes writes that fails at calls, and how it ends.
fn from_faulty<L: Ledger>(
    alloc: Global,
    more: &[&str],
    model: &[u8],
    fails: Vec<u64>,
    blank: Blank,
) -> Result<(Vec<u8>, Status), Fail>
    requires name { blank.name ≡ L.name }
    requires parts { blank.parts ≡ L.parts }
    requires some { 0 < blank.parts }
{
    let mut steps = Steps::<L>::new(blank);
    let mut shelf = shelf_of(alloc, model)?;
    let mut source = FaultyIn::new(b"? 1\n? 2\n".to_vec(alloc)?, 4, fails);
    let mut sink = CalmOut::new(alloc);
    let words = words_of(alloc, more)?;
    let status = run(
        alloc,
        &words,
        &mut shelf,
        &mut source,
        &mut sink,
        &mut steps,
    );
    Ok((sink.written().to_vec(alloc)?, status))
}

#[test]
fn a_source_that_fails_ends_the_run_behind_the_answers(rt: HostRuntime) -> Result<(), Fail> {
    let alloc = rt.alloc();
    for (call, output, wanted) in [
        (1, "", Status::ReadFault),
        (2, "-> 1 : Integer\n", Status::ReadFault),
        (3, "-> 1 : Integer\n-> 2 : Integer\n", Status::ReadFault),
        (4, "-> 1 : Integer\n-> 2 : Integer\n", Status::Done),
    ] {
        let fails = vec![in alloc; call]?;
        let (out, status) = from_faulty::<Brand>(
            alloc,
            &["M.use"],
            b"model E",
            fails,
            Blank::new(1),
        )?;
        assert_eq!(rt; out.as_slice(), output.as_bytes(), "at call {call}");
        assert_eq!(rt; status, wanted, "at call {call}");
    }
    Ok(())
}

#[test]
fn refused_words_and_models_are_told_whatever_the_input_does(rt: HostRuntime) -> Result<(), Fail> {
    let alloc = rt.alloc();
    let fails = vec![in alloc; 1]?;
    let (out, status) = from_faulty::<Brand>(alloc, &["M.use"], b"model", fails, Blank::new(1))?;
    assert_eq!(rt;
        out.as_slice(),
        b"refused S1 at 1:6: unexpected token\n".as_slice()
    );
    assert_eq!(rt; status, Status::ModelRefused);
    let fails = vec![in alloc; 1]?;
    let (out, status) = from_faulty::<Brand>(alloc, &[], b"model E", fails, Blank::new(1))?;
    assert_eq!(rt; out.as_slice(), USAGE.as_bytes());
    assert_eq!(rt; status, Status::Usage);
    Ok(())
}

// How a run over a sink that fails ends.
fn into_broken<L: Ledger>(alloc: Global, more: &[&str], blank: Blank) -> Result<(u64, Status), Fail>
    requires name { blank.name ≡ L.name }
    requires parts { blank.parts ≡ L.parts }
    requires some { 0 < blank.parts }
{
    let mut steps = Steps::<L>::new(blank);
    let mut shelf = shelf_of(alloc, b"model E")?;
    let mut source = CalmIn::new(b"? 1\n? 2\n".to_vec(alloc)?, 10);
    let mut sink = BrokenOut { faults: 0 };
    let words = words_of(alloc, more)?;
    let status = run(
        alloc,
        &words,
        &mut shelf,
        &mut source,
        &mut sink,
        &mut steps,
    );
    Ok((sink.faults, status))
}

#[test]
fn a_sink_that_fails_ends_the_run_at_its_first_write(rt: HostRuntime) -> Result<(), Fail> {
    let alloc = rt.alloc();
    let (faults, status) = into_broken::<Brand>(alloc, &["M.use"], Blank::new(1))?;
    assert_eq!(rt; faults, 1);
    assert_eq!(rt; status, Status::WriteFault);
    let (_, status) = into_broken::<Brand>(alloc, &[], Blank::new(1))?;
    assert_eq!(rt; status, Status::WriteFault);
    Ok(())
}
