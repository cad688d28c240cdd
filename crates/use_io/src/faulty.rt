// A source in memory that fails at calls that are listed.
ghost use Rattle.std.specs.Prelude.{◌≡◌, ◌<◌, ◌+◌, ◌-◌, ◌^◌, min, length, Some, IfOk, is_err};
ghost use Rattle.std.specs.Io.{ReadsAtMost};
ghost use Rattle.std.specs.Io.KnownBytes.{ReadConsumes};
ghost use Rattle.use_io.specs.Causes.{HasCause};
ghost use Rattle.use_io.specs.Reading.{reading, faulty_reading, fails_at};

use crate::{CalmIn, Failed, Source};
use std::marker::Model;

/// Bytes in memory, given in pieces of at most one length. It fails at the calls that are listed,
/// counted from 1; the count of calls stands still at `u64::MAX`.
#[derive(Debug, Drop)]
pub struct FaultyIn {
    source: CalmIn,
    fails: Vec<u64>,
    calls: u64,
    faults: u64,
}

impl Model for FaultyIn {
    ghost use Rattle.use_io.specs.Reading.{FaultyReading};

    ghost Value = { FaultyReading };

    ghost view = { λ s. record { reading = s.source; fails = s.fails.items; calls = s.calls; faults = s.faults } };
}

impl FaultyIn {
    /// These bytes, at most `piece` of them at each call, and a failure at each call that `fails`
    /// lists.
    pub fn new(bytes: Vec<u8>, piece: usize, fails: Vec<u64>) -> FaultyIn
        requires { 0 < piece }
        ensures { result ≡ faulty_reading (reading bytes.items piece) fails.items }
    {
        FaultyIn {
            source: CalmIn::new(bytes, piece),
            fails,
            calls: 0,
            faults: 0,
        }
    }
}

impl Source for FaultyIn {
    ghost left = { λ s. Some s.reading.left };

    ghost faults = { λ s. s.faults };

    fn take(&mut self, buf: &mut [u8]) -> Result<usize, Failed>
        requires { 0 < length buf.old }
        ensures bound { ReadsAtMost result buf.new }
        ensures bytes { ReadConsumes (Some self.old.reading.left) (Some self.new.reading.left) result buf.new }
        ensures cause { HasCause self.old.faults self.new.faults result }

        // It fails exactly at the calls that are listed.
        ensures calls { self.new.calls ≡ min (self.old.calls + 1) (2 ^ 64 - 1) }
        ensures fails { is_err result ≡ fails_at self.old.fails self.new.calls }
        ensures listed { self.new.fails ≡ self.old.fails }
        ensures count { IfOk result (λ n. n ≡ min self.old.reading.piece (min (length buf.old) (length self.old.reading.left))) }
        ensures piece { self.new.reading.piece ≡ self.old.reading.piece }
    {
        self.calls = self.calls.saturating_add(1);
        if self.fails.contains(&self.calls) {
            self.faults = self.faults.saturating_add(1);
            return Err(Failed);
        }
        self.source.take(buf)
    }
}
