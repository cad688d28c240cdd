// Files of the system. They tell no content.
ghost use Rattle.std.specs.Prelude.{None, ◌≡◌, ◌<◌, ◌≤◌, IfOk, IfSome, IsErrOf, length};

use crate::{Shelf, ShelfFault};
use std::alloc::Global;
use std::fs::File;
use std::io::{ErrorKind, Read};
use std::marker::Model;
use std::rt::Files;

/// The system's files, with a count of its failures. A file that the system does not know is
/// missing; a directory, a file that may not be read, and a name that the system refuses are
/// failures. It tells no content.
#[derive(Drop)]
pub struct DiskShelf<'a, R: Files> {
    rt: &'a R,
    faults: u64,
}

impl<'a, R: Files> Model for DiskShelf<'a, R> {
    ghost use Rattle.std.specs.Prelude.{ℕ};

    ghost Value = { ℕ };

    ghost view = { λ s. s.faults };
}

impl<'a, R: Files> DiskShelf<'a, R> {
    /// A shelf that has not failed yet.
    pub fn new(rt: &'a R) -> DiskShelf<'a, R>
        ensures { result ≡ 0 }
    {
        DiskShelf { rt, faults: 0 }
    }

    /// How often it has failed.
    pub fn faults(&self) -> u64
        ensures { result ≡ self.now }
    {
        self.faults
    }
}

// How many bytes of a file are read at once.
const PIECE: usize = 4096;

// All that a reader has left, where it is at most so many bytes.
pub(crate) fn read_within<T: Read + Drop>(
    alloc: Global,
    mut reader: T,
    limit: u32,
) -> Result<Vec<u8>, ShelfFault>
    ensures bound { IfOk result (λ v. length v.items ≤ limit) }
    ensures whole { IfOk result (λ v. IfSome (T.remaining reader) (λ bytes. v.items ≡ bytes)) }
    ensures long { IsErrOf result ShelfFault.TooLong → IfSome (T.remaining reader) (λ bytes. limit < length bytes) }
    ensures never_missing { ¬ IsErrOf result ShelfFault.Missing }
{
    let mut bytes = Vec::new(alloc);
    let mut piece = [0u8; PIECE];
    'pieces: loop {
        let Ok(count) = reader.read(&mut piece) else {
            return Err(ShelfFault::Failed);
        };
        if count == 0 {
            return Ok(bytes);
        }
        if count > limit as usize - bytes.len() {
            return Err(ShelfFault::TooLong);
        }
        let Ok(()) = bytes.extend_from_slice(&piece[..count]) else {
            return Err(ShelfFault::Memory);
        };
    }
}

fn fetch_from<R: Files>(
    rt: &R,
    alloc: Global,
    name: &str,
    limit: u32,
) -> Result<Vec<u8>, ShelfFault>
    ensures { IfOk result (λ v. length v.items ≤ limit) }
{
    match File::open(rt, name) {
        Ok(file) => read_within(alloc, file, limit),
        Err(e) => {
            if e.kind() == ErrorKind::NotFound {
                Err(ShelfFault::Missing)
            } else {
                Err(ShelfFault::Failed)
            }
        }
    }
}

impl<R: Files> Shelf for DiskShelf<'_, R> {
    ghost files = { λ s. None };

    ghost faults = { λ s. s };

    fn fetch(&mut self, alloc: Global, name: &str, limit: u32) -> Result<Vec<u8>, ShelfFault> {
        match fetch_from(self.rt, alloc, name, limit) {
            Err(ShelfFault::Failed) => {
                self.faults = self.faults.saturating_add(1);
                Err(ShelfFault::Failed)
            }
            other => other,
        }
    }
}
