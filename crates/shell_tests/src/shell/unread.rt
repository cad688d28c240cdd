ghost use Rattle.std.specs.Prelude.{◌≡◌, ◌<◌, None};

use super::words_of;
use std::alloc::Global;
use std::marker::Brand;
use std::sync::ledger::{Blank, Ledger};
use std::test::Fail;
use use_io::{CalmIn, CalmOut, Shelf, ShelfFault};
use use_shell::{Status, run};
use use_steps::Steps;

/// A shelf that gives a model once, and then fails at each call.
#[derive(Drop)]
struct WornShelf {
    worn: bool,
    faults: u64,
}

impl Shelf for WornShelf {
    ghost files = { λ s. None };

    ghost faults = { λ s. s.faults };

    fn fetch(&mut self, alloc: Global, _name: &str, limit: u32) -> Result<Vec<u8>, ShelfFault> {
        if self.worn {
            self.faults = self.faults.saturating_add(1);
            return Err(ShelfFault::Failed);
        }
        self.worn = true;
        let model = b"model E".as_slice();
        if model.len() > limit as usize {
            return Err(ShelfFault::TooLong);
        }
        match model.to_vec(alloc) {
            Ok(copy) => Ok(copy),
            Err(_) => Err(ShelfFault::Memory),
        }
    }
}

// What a run over a shelf that fails writes, and how it ends.
fn from_worn<L: Ledger>(
    alloc: Global,
    worn: bool,
    input: &[u8],
    blank: Blank,
) -> Result<(Vec<u8>, Status), Fail>
    requires name { blank.name ≡ L.name }
    requires parts { blank.parts ≡ L.parts }
    requires some { 0 < blank.parts }
{
    let mut steps = Steps::<L>::new(blank);
    let mut shelf = WornShelf { worn, faults: 0 };
    let mut source = CalmIn::new(input.to_vec(alloc)?, 4096);
    let mut sink = CalmOut::new(alloc);
    let words = words_of(alloc, &["--strict", "M.use"])?;
    let status = run(
        alloc,
        &words,
        &mut shelf,
        &mut source,
        &mut sink,
        &mut steps,
    );
    Ok((sink.written().to_vec(alloc)?, status))
}

#[test]
fn a_file_that_cannot_be_read_ends_the_run(rt: HostRuntime) -> Result<(), Fail> {
    let alloc = rt.alloc();
    let input = b"? 1\nopen a\n? 2\n";
    let (out, status) = from_worn::<Brand>(alloc, false, input, Blank::new(1))?;
    assert_eq!(rt; out.as_slice(), b"-> 1 : Integer\n".as_slice());
    assert_eq!(rt; status, Status::ReadFault);
    let (out, status) = from_worn::<Brand>(alloc, true, input, Blank::new(1))?;
    assert_eq!(rt; out.as_slice(), b"".as_slice());
    assert_eq!(rt; status, Status::ReadFault);
    Ok(())
}
