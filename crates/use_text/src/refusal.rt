ghost use Rattle.std.specs.Prelude.{◌≡◌, ◌++◌, OnOk};
ghost use Rattle.use_text.specs.Codes.{code_text};
ghost use Rattle.use_text.specs.Places.{place_text};
ghost use Rattle.use_text.specs.Refusals.{refusal_text};

use crate::{Code, Place, text_of};
use itoa::Buffer;
use std::alloc::AllocError;
use std::fmt;

/// A rule that was broken, and where. It is written as the shell answers it, without the line's end:
/// `refused CODE at LINE:COLUMN: TEXT`.
#[derive(Clone, Copy, Debug, PartialEq, Eq)]
pub struct Refusal {
    pub code: Code,
    pub place: Place,
}

fn append_code(code: Code, out: &mut Vec<u8>) -> Result<(), AllocError>
    ensures { OnOk result (out.new.items ≡ out.old.items ++ code_text code) }
{
    let mut digits = Buffer::new();
    out.extend_from_slice(code.family.letter().as_bytes())?;
    out.extend_from_slice(digits.format(code.number).as_bytes())
}

fn append_place(place: Place, out: &mut Vec<u8>) -> Result<(), AllocError>
    ensures { OnOk result (out.new.items ≡ out.old.items ++ place_text place) }
{
    let mut digits = Buffer::new();
    out.extend_from_slice(digits.format(place.line).as_bytes())?;
    out.extend_from_slice(b":")?;
    out.extend_from_slice(digits.format(place.col).as_bytes())
}

impl Refusal {
    /// Appends what it is written as, in no memory but that of `out`. After want of memory, `out` is
    /// in no stated condition.
    pub fn append_to(&self, out: &mut Vec<u8>) -> Result<(), AllocError>
        ensures { OnOk result (out.new.items ≡ out.old.items ++ refusal_text self.now) }
    {
        out.extend_from_slice(b"refused ")?;
        append_code(self.code, out)?;
        out.extend_from_slice(b" at ")?;
        append_place(self.place, out)?;
        out.extend_from_slice(b": ")?;
        out.extend_from_slice(text_of(self.code).as_bytes())
    }
}

impl fmt::Display for Refusal {
    ghost use Rattle.std.specs.Prelude.{Some};
    ghost use Rattle.use_text.specs.Refusals.{refusal_text};

    ghost output = { λ r. Some (refusal_text r) };

    fn fmt<W: fmt::Write>(&self, f: &mut fmt::Formatter<W>) -> fmt::Result {
        write!(
            f,
            "refused {} at {}: {}",
            self.code,
            self.place,
            text_of(self.code)
        )
    }
}
