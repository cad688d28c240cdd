ghost use Rattle.std.specs.Prelude.{◌≡◌, ◌++◌, OnOk};
ghost use Rattle.use_shell.specs.Echo.{echoed, prompt, prompted, shown};

use std::alloc::AllocError;
use use_text::{Cut, Fate};

/// What stands before each line of a command.
const PROMPT: &[u8] = b"use> ";

/// Appends a byte of a command, and the prompt of the line that it begins.
fn append_byte(b: u8, out: &mut Vec<u8>) -> Result<(), AllocError>
    ensures { OnOk result (out.new.items ≡ out.old.items ++ prompted b) }
{
    out.push(b)?;
    if b == b'\n' {
        out.extend_from_slice(PROMPT)
    } else {
        Ok(())
    }
}

/// Appends the lines of a command, each behind a prompt.
fn append_lines(text: &[u8], out: &mut Vec<u8>) -> Result<(), AllocError>
    ensures { OnOk result (out.new.items ≡ out.old.items ++ shown text.now) }
{
    out.extend_from_slice(PROMPT)?;
    'bytes: for &b in text {
        append_byte(b, out)?;
    }
    out.push(b'\n')?;
    Ok(())
}

/// Appends what is written before a command's answer: its lines, where that is wanted and it is not
/// too long.
pub(crate) fn append_echo(echo: bool, cut: &Cut, out: &mut Vec<u8>) -> Result<(), AllocError>
    ensures { OnOk result (out.new.items ≡ out.old.items ++ echoed echo cut.now) }
{
    match cut.fate {
        Fate::TooLong => Ok(()),
        Fate::Whole | Fate::Unfinished => {
            if echo {
                append_lines(cut.text.as_slice(), out)
            } else {
                Ok(())
            }
        }
    }
}
