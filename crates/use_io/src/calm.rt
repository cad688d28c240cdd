// Sources and sinks in memory, which never fail.
ghost use Rattle.std.specs.Prelude.{◌≡◌, ◌<◌, ◌≤◌, min, length, Some, []};
ghost use Rattle.std.specs.Io.{ReadsAtMost};
ghost use Rattle.std.specs.Io.KnownBytes.{ReadConsumes};
ghost use Rattle.use_io.specs.Causes.{HasCause};

use crate::{Failed, Sink, SinkFault, Source};
use std::alloc::Global;
use std::marker::Model;

/// Bytes in memory, given in pieces of at most one length. It never fails.
#[derive(Debug, Drop)]
pub struct CalmIn {
    bytes: Vec<u8>,
    at: usize,
    piece: usize,
}

impl Model for CalmIn {
    ghost use Rattle.std.specs.Prelude.{◌<◌, ◌≤◌, vec_len, drop};
    ghost use Rattle.use_io.specs.Reading.{Reading, reading};

    ghost Value = { Reading };

    ghost view = { λ s. reading (drop s.at s.bytes.items) s.piece };

    ghost invariant = { λ s. (s.at ≤ vec_len s.bytes) × (0 < s.piece) };
}

impl CalmIn {
    ghost use Rattle.use_io.specs.Reading.{reading};

    /// These bytes, at most `piece` of them at each call.
    pub fn new(bytes: Vec<u8>, piece: usize) -> CalmIn
        requires { 0 < piece }
        ensures { result ≡ reading bytes.items piece }
    {
        CalmIn {
            bytes,
            at: 0,
            piece,
        }
    }
}

impl Source for CalmIn {
    ghost left = { λ s. Some s.left };

    ghost faults = { λ s. 0 };

    fn take(&mut self, buf: &mut [u8]) -> Result<usize, Failed>
        requires { 0 < length buf.old }
        ensures bound { ReadsAtMost result buf.new }
        ensures bytes { ReadConsumes (Some self.old.left) (Some self.new.left) result buf.new }
        ensures cause { HasCause 0 0 result }

        // As many as fit, of those that are left, and no more than a piece.
        ensures count { result ≡ Ok (min self.old.piece (min (length buf.old) (length self.old.left))) }
        ensures piece { self.new.piece ≡ self.old.piece }
    {
        let count = self.piece.min(buf.len()).min(self.bytes.len() - self.at);
        buf[..count].copy_from_slice(&self.bytes[self.at..self.at + count]);
        self.at += count;
        Ok(count)
    }
}

/// What was written, in memory. It never fails, but may lack memory.
#[derive(Debug, Drop)]
pub struct CalmOut {
    bytes: Vec<u8>,
}

impl Model for CalmOut {
    ghost use Rattle.std.specs.Prelude.{ℕ, List};

    ghost Value = { List ℕ };

    ghost view = { λ s. s.bytes.items };
}

impl CalmOut {
    /// Nothing is written yet.
    pub fn new(alloc: Global) -> CalmOut
        ensures { result ≡ [] }
    {
        CalmOut {
            bytes: Vec::new(alloc),
        }
    }

    /// All that was written, in order.
    pub fn written(&self) -> &[u8]
        ensures { result.now ≡ self.now }
    {
        &self.bytes
    }
}

impl Sink for CalmOut {
    ghost written = { λ s. Some s };

    ghost faults = { λ s. 0 };

    fn put(&mut self, bytes: &[u8]) -> Result<usize, SinkFault> {
        match self.bytes.extend_from_slice(bytes) {
            Ok(()) => Ok(bytes.len()),
            Err(_) => Err(SinkFault::Memory),
        }
    }
}
