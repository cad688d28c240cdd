ghost use Rattle.std.specs.Prelude.{◌≡◌, ◌++◌, OnOk};
ghost use Rattle.std.specs.Fmt.{decimal};
ghost use Rattle.use_info.specs.Counts.{count_line};

use itoa::Buffer;
use std::alloc::AllocError;

/// Appends a text.
pub(crate) fn append(text: &str, out: &mut Vec<u8>) -> Result<(), AllocError>
    ensures { OnOk result (out.new.items ≡ out.old.items ++ text.now) }
{
    out.extend_from_slice(text.as_bytes())
}

/// Appends a line `WORD NUMBER`.
pub(crate) fn append_count(word: &str, count: usize, out: &mut Vec<u8>) -> Result<(), AllocError>
    ensures { OnOk result (out.new.items ≡ out.old.items ++ count_line word.now count) }
{
    let mut digits = Buffer::new();
    append(word, out)?;
    append(" ", out)?;
    append(digits.format(count), out)?;
    append("\n", out)
}
