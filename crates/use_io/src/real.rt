// Adapters over std's readers and writers. They tell what these tell.
ghost use Rattle.std.specs.Prelude.{◌≡◌, ◌≤◌, IfOk, IfSome, IfNone, IsErrOf, length, take, []};
ghost use Rattle.std.specs.Io.{WritesAtMost};
ghost use Rattle.std.specs.Io.KnownBytes.{Appends, Keeps, WriteAppends};
ghost use Rattle.use_io.specs.Causes.{HasSinkCause};
ghost use Rattle.use_io.specs.Real.{accepted};

use crate::{Failed, Sink, SinkFault, Source};
use std::io::{Read, Write};
use std::marker::Model;

/// A reader, with a count of its failures. It gives what the reader gives, as soon as it does, and
/// tells what is left where the reader does.
#[derive(Drop)]
pub struct StdIn<T: Read + Drop> {
    reader: T,
    faults: u64,
}

impl<T: Read + Drop> Model for StdIn<T> {
    ghost use Rattle.use_io.specs.Real.{Counted};

    ghost Value = { Counted T };

    ghost view = { λ s. record { inner = s.reader; faults = s.faults } };
}

impl<T: Read + Drop> StdIn<T> {
    /// A reader that has not failed yet.
    pub fn new(reader: T) -> StdIn<T>
        ensures reader { result.inner ≡ reader }
        ensures faults { result.faults ≡ 0 }
    {
        StdIn { reader, faults: 0 }
    }
}

impl<T: Read + Drop> Source for StdIn<T> {
    ghost left = { λ s. T.remaining s.inner };

    ghost faults = { λ s. s.faults };

    fn take(&mut self, buf: &mut [u8]) -> Result<usize, Failed> {
        match self.reader.read(buf) {
            Ok(count) => Ok(count),
            Err(_) => {
                self.faults = self.faults.saturating_add(1);
                Err(Failed)
            }
        }
    }
}

/// A writer, with a count of its failures. It flushes after each write; a write that takes nothing
/// of a piece that is not empty, and a flush that fails, are failures. Of a write whose flush failed
/// nothing is accepted, and no write is tried after it. It tells what was accepted where the writer
/// tells what it holds.
#[derive(Drop)]
pub struct StdOut<T: Write + Drop> {
    writer: T,
    faults: u64,
    refused: usize,
}

impl<T: Write + Drop> Model for StdOut<T> {
    ghost use Rattle.use_io.specs.Real.{Flushed};

    ghost Value = { Flushed T };

    ghost view = { λ s. record { inner = s.writer; faults = s.faults; refused = s.refused } };
}

impl<T: Write + Drop> StdOut<T> {
    /// A writer that has not failed yet.
    pub fn new(writer: T) -> StdOut<T>
        ensures writer { result.inner ≡ writer }
        ensures faults { result.faults ≡ 0 }
        ensures refused { result.refused ≡ 0 }
    {
        StdOut {
            writer,
            faults: 0,
            refused: 0,
        }
    }

    // Writes and flushes; none where either fails, or nothing of a piece that is not empty was taken.
    fn write_through(&mut self, bytes: &[u8]) -> Option<usize>
        ensures bound { IfSome result (λ n. n ≤ length bytes.now) }
        ensures progress { IfSome result (λ n. n ≡ 0 → bytes.now ≡ []) }
        ensures some { IfSome result (λ n. Appends (accepted T.contents self.old) (accepted T.contents self.new) (take n bytes.now)) }
        ensures none { IfNone result (Keeps (accepted T.contents self.old) (accepted T.contents self.new)) }
        ensures faults { self.new.faults ≡ self.old.faults }
    {
        if self.refused > 0 {
            return None;
        }
        let count = self.writer.write(bytes).ok()?;
        if self.writer.flush().is_err() {
            self.refused = count;
            return None;
        }
        if count == 0 && !bytes.is_empty() {
            return None;
        }
        Some(count)
    }
}

impl<T: Write + Drop> Sink for StdOut<T> {
    ghost written = { accepted T.contents };

    ghost faults = { λ s. s.faults };

    fn put(&mut self, bytes: &[u8]) -> Result<usize, SinkFault>
        ensures bound { WritesAtMost result bytes.now }
        ensures progress { IfOk result (λ n. n ≡ 0 → bytes.now ≡ []) }
        ensures bytes { WriteAppends (accepted T.contents self.old) (accepted T.contents self.new) result bytes.now }
        ensures cause { HasSinkCause self.old.faults self.new.faults result }
        ensures never_memory { ¬ IsErrOf result SinkFault.Memory }
    {
        match self.write_through(bytes) {
            Some(count) => Ok(count),
            None => {
                self.faults = self.faults.saturating_add(1);
                Err(SinkFault::Failed)
            }
        }
    }
}
