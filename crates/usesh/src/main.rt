//! `usesh [--echo] [--strict] MODEL`: reads a model and a stream of commands, and writes their answers.
#![tactic(auto)]

ghost use Rattle.std.specs.Prelude.{◌≡◌, ◌<◌};

use std::alloc::Global;
use std::env;
use std::io::ErrorKind;
use std::marker::Brand;
use std::process::ExitCode;
use std::sync::ledger::{Blank, Ledger};
use use_io::{DiskShelf, Shelf, Sink, Source, StdIn, StdOut};
use use_shell::{Status, run};
use use_steps::Steps;

/// Runs the program with a counter of steps that starts at 0, and is not looked at.
fn run_uncounted<F: Shelf, S: Source, K: Sink, L: Ledger>(
    alloc: Global,
    words: &[String],
    shelf: &mut F,
    source: &mut S,
    sink: &mut K,
    blank: Blank,
) -> Status
    requires name { blank.name ≡ L.name }
    requires parts { blank.parts ≡ L.parts }
    requires some { 0 < blank.parts }
{
    let mut steps = Steps::<L>::new(blank);
    run(alloc, words, shelf, source, sink, &mut steps)
}

/// What could not be read: the model or a file that a command opens, or the input.
fn unread(shelf_failed: bool) -> &'static str {
    if shelf_failed { "a file" } else { "the input" }
}

/// The size of the blocks that stay with the program when it gives them up.
const KEPT_BYTES: usize = 16_777_216;

/// Gives up one large block. The C library's allocator returns blocks to the system that are larger
/// than the largest one that was given up so far; without it, a long list would be mapped anew for each
/// query. Where the block is refused, nothing is lost.
fn keep_large_blocks(alloc: Global) {
    let _ = Vec::<u8>::with_capacity(alloc, KEPT_BYTES);
}

fn main(rt: HostRuntime) -> ExitCode {
    let alloc = rt.alloc();
    keep_large_blocks(alloc);
    // A word that is not UTF-8 makes the words a faulty command line.
    let words = match env::args(&rt) {
        Ok(args) => match args.collect::<Vec<String>>(alloc) {
            Ok(words) => words,
            Err(_) => return ExitCode::from(Status::Memory.number()),
        },
        Err(e) if e.kind() == ErrorKind::OutOfMemory => {
            return ExitCode::from(Status::Memory.number());
        }
        Err(_) => Vec::new(alloc),
    };
    let mut shelf = DiskShelf::new(&rt);
    let mut source = StdIn::new(rt.reader());
    let mut sink = StdOut::new(std::io::writer(&rt));
    let status = run_uncounted::<_, _, _, Brand>(
        alloc,
        &words,
        &mut shelf,
        &mut source,
        &mut sink,
        Blank::new(1),
    );
    // A run that a fault ended says so, where it can; its answers and its status stand without that.
    let _ = match status {
        Status::ReadFault => {
            let unread = unread(shelf.faults() > 0);
            eprintln!(rt; "usesh: cannot read {unread}")
        }
        Status::WriteFault => eprintln!(rt; "usesh: cannot write"),
        Status::Memory => eprintln!(rt; "usesh: out of memory"),
        _ => Ok(()),
    };
    ExitCode::from(status.number())
}
