ghost use Rattle.std.specs.Prelude.{◌≡◌, ◌++◌, IfOk, OnOk, drop, false};
ghost use Rattle.use_text.specs.Pieces.{escaped, unquoted, string_of_quoted};

use crate::Bytes;
use std::alloc::{AllocError, Global};

/// The byte that stands behind a backslash as this one.
fn escaped(b: u8) -> u8
    ensures { result ≡ escaped b }
{
    match b {
        b'n' => b'\n',
        b't' => b'\t',
        _ => b,
    }
}

/// What bytes behind a quote stand for, up to the quote that ends them.
fn unquoted(alloc: Global, bytes: &[u8]) -> Result<Vec<u8>, AllocError>
    ensures { IfOk result (λ v. v.items ≡ unquoted false bytes.now) }
{
    let mut out = Vec::new(alloc);
    let mut taken = false;
    'bytes: for b in bytes {
        if taken {
            out.push(escaped(*b))?;
            taken = false;
            continue;
        }
        match *b {
            b'\'' => return Ok(out),
            b'\\' => taken = true,
            other => out.push(other)?,
        }
    }
    Ok(out)
}

/// What the bytes of a string token stand for: without its quotes, and each escape as its character.
pub fn string_of_quoted(alloc: Global, quoted: &[u8]) -> Result<Bytes, AllocError>
    ensures { IfOk result (λ v. v ≡ string_of_quoted quoted.now) }
{
    let rest = quoted.get(1..).unwrap_or(&[]);
    Ok(Bytes::from_vec(unquoted(alloc, rest)?))
}
