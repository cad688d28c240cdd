//! The outside: where bytes come from, where they go, and files by name. Each object counts how
//! often it has failed, so that a caller can tell a failure of the outside from any other answer.
#![tactic(auto)]

mod calm;
mod disk;
mod faulty;
mod memory;
mod real;

ghost use Rattle.std.specs.Prelude.{◌≡◌, ◌<◌, ◌≤◌, List, ℕ, Option, Result, length, IfOk, IsErrOf, []};
ghost use Rattle.std.specs.Io.{ReadsAtMost, WritesAtMost};
ghost use Rattle.std.specs.Io.KnownBytes.{ReadConsumes, WriteAppends};
ghost use Rattle.use_io.specs.Causes.{HasCause, HasSinkCause, HasShelfCause};
ghost use Rattle.use_io.specs.Shelves.{Files, LacksFile, HasLonger, HasFile, KeepsFiles, AnswersUnlessFailed};

pub use calm::{CalmIn, CalmOut};
pub use disk::DiskShelf;
pub use faulty::FaultyIn;
pub use memory::MemShelf;
pub use real::{StdIn, StdOut};
use std::alloc::Global;
use thiserror::Error;

/// The outside failed.
#[derive(Clone, Copy, Debug, PartialEq, Eq, Error)]
#[error("the input cannot be read")]
pub struct Failed;

/// Why bytes were not written.
#[derive(Clone, Copy, Debug, PartialEq, Eq, Error)]
pub enum SinkFault {
    #[error("the output cannot be written")]
    Failed,
    #[error("out of memory")]
    Memory,
}

/// Why a file was not given.
#[derive(Clone, Copy, Debug, PartialEq, Eq, Error)]
pub enum ShelfFault {
    #[error("the file cannot be read")]
    Failed,
    #[error("no such file")]
    Missing,
    #[error("file is too long")]
    TooLong,
    #[error("out of memory")]
    Memory,
}

/// Where bytes come from.
pub trait Source {
    /// The bytes that are left, where it tells them.
    ghost left: { Self → Option (List ℕ) };

    /// How often it has failed; the count stands still at `u64::MAX`.
    ghost faults: { Self → ℕ };

    /// Puts the next bytes at the front of `buf`, and answers how many; 0 is the end.
    fn take(&mut self, buf: &mut [u8]) -> Result<usize, Failed>
        requires { 0 < length buf.old }
        ensures bound { ReadsAtMost result buf.new }
        ensures bytes { ReadConsumes (left self.old) (left self.new) result buf.new }
        ensures cause { HasCause (faults self.old) (faults self.new) result };
}

/// Where bytes go.
pub trait Sink {
    /// The bytes that were written, where it tells them.
    ghost written: { Self → Option (List ℕ) };

    /// How often it has failed; the count stands still at `u64::MAX`.
    ghost faults: { Self → ℕ };

    /// Writes a front of the bytes and answers its length: at least one byte of a piece that is not
    /// empty.
    fn put(&mut self, bytes: &[u8]) -> Result<usize, SinkFault>
        ensures bound { WritesAtMost result bytes.now }
        ensures progress { IfOk result (λ n. n ≡ 0 → bytes.now ≡ []) }
        ensures bytes { WriteAppends (written self.old) (written self.new) result bytes.now }
        ensures cause { HasSinkCause (faults self.old) (faults self.new) result };
}

/// Files by name.
pub trait Shelf {
    /// The files that it holds, where it tells them.
    ghost files: { Self → Option Files };

    /// How often it has failed; the count stands still at `u64::MAX`.
    ghost faults: { Self → ℕ };

    /// The file's bytes, where they are at most `limit`.
    fn fetch(&mut self, alloc: Global, name: &str, limit: u32) -> Result<Vec<u8>, ShelfFault>
        ensures bound { IfOk result (λ v. length v.items ≤ limit) }
        ensures missing { IsErrOf result ShelfFault.Missing → LacksFile (files self.old) name.now }
        ensures long { IsErrOf result ShelfFault.TooLong → HasLonger (files self.old) name.now limit }
        ensures held { IfOk result (λ v. HasFile (files self.old) name.now v.items) }
        ensures exact { AnswersUnlessFailed (files self.old) name.now limit result }
        ensures files { KeepsFiles (files self.old) (files self.new) }
        ensures cause { HasShelfCause (faults self.old) (faults self.new) result };
}
