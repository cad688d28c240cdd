// Files in memory.
ghost use Rattle.std.specs.Prelude.{◌≡◌, ◌==◌, Some, IfOk, OnOk, length, drop, string_bytes};
ghost use Rattle.std.specs.Option.{option_map};
ghost use Rattle.use_io.specs.Held.{named, held_by, files_of};
ghost use Rattle.std.specs.FinMap.{get};

use crate::{Shelf, ShelfFault};
use std::alloc::Global;
use std::marker::Model;

/// Files in memory. Of two with one name the first counts. It never fails.
#[derive(Debug, Drop)]
pub struct MemShelf {
    files: Vec<(String, Vec<u8>)>,
}

impl Model for MemShelf {
    ghost use Rattle.std.specs.Prelude.{List};
    ghost use Rattle.use_io.specs.Held.{Named, named};

    ghost Value = { List Named };

    ghost view = { λ s. named s.files.items };
}

impl MemShelf {
    /// A shelf that holds these files.
    pub fn new(files: Vec<(String, Vec<u8>)>) -> MemShelf
        ensures { result ≡ named files.items }
    {
        MemShelf { files }
    }
}

// The first file of that name.
fn held<'a>(files: &'a [(String, Vec<u8>)], name: &str) -> Option<&'a Vec<u8>>
    ensures { option_map (λ v. v.now.items) result ≡ get (held_by files.now) name.now }
{
    for file in files {
        if file.0.as_bytes() == name.as_bytes() {
            return Some(&file.1);
        }
    }
    None
}

impl Shelf for MemShelf {
    ghost files = { λ s. Some (files_of s) };

    ghost faults = { λ s. 0 };

    fn fetch(&mut self, alloc: Global, name: &str, limit: u32) -> Result<Vec<u8>, ShelfFault> {
        let Some(bytes) = held(&self.files, name) else {
            return Err(ShelfFault::Missing);
        };
        if bytes.len() > limit as usize {
            return Err(ShelfFault::TooLong);
        }
        match bytes.to_vec(alloc) {
            Ok(copy) => Ok(copy),
            Err(_) => Err(ShelfFault::Memory),
        }
    }
}
