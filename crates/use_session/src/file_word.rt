ghost use Rattle.std.specs.Prelude.{◌≡◌, ◌≤◌, IfErr, IfOk, Err, Ok, length, true};
ghost use Rattle.use_text.specs.Limits.{max_command, max_lines};
ghost use Rattle.use_text.specs.Pieces.{is_white};
ghost use Rattle.use_session.specs.FileWords.{dark, ends_word, file_name, first_place, is_open, judged, opens_file, trimmed, without_quotes};

use use_text::{Code, Cut, Fate, Place, behind_all, is_name_byte, white_length};

/// The most bytes of a file's name.
const MAX_NAME: usize = 255;

fn ends_word(bytes: &[u8]) -> bool
    ensures { result ≡ ends_word bytes.now }
{
    match bytes.first() {
        Some(&b) => !is_name_byte(b),
        None => true,
    }
}

fn is_white(b: u8) -> bool
    ensures { result ≡ is_white b }
{
    b == b' ' || b == b'\t' || b == b'\r' || b == b'\n'
}

/// A text without the white space that it begins with.
fn dark(text: &[u8]) -> &[u8]
    ensures { result.now ≡ dark text.now }
{
    &text[white_length(text)..]
}

/// A text without the white space at its end.
fn trimmed(text: &[u8]) -> &[u8]
    ensures { result.now ≡ trimmed text.now }
{
    let mut end = text.len();
    'bytes: while end > 0 && is_white(text[end - 1]) {
        end -= 1;
    }
    &text[..end]
}

/// A name without one pair of single quotes around it.
fn without_quotes(name: &[u8]) -> &[u8]
    ensures { result.now ≡ without_quotes name.now }
{
    let end = name.len();
    if end >= 2 && name[0] == b'\'' && name[end - 1] == b'\'' {
        &name[1..end - 1]
    } else {
        name
    }
}

/// Whether the word `open` stands behind white space. Such a command names a file, and is not split
/// into tokens.
fn opens_file(text: &[u8]) -> bool
    ensures { result ≡ opens_file text.now }
{
    let dark = dark(text);
    dark.starts_with(b"open") && ends_word(&dark[4..])
}

/// Whether a command was cut out whole, and opens a file.
pub(crate) fn is_open(cut: &Cut) -> bool
    ensures { result ≡ is_open cut.now }
{
    match cut.fate {
        Fate::Whole => opens_file(cut.text.as_slice()),
        Fate::TooLong | Fate::Unfinished => false,
    }
}

/// The name of the file that a text opens.
pub(crate) fn file_name(text: &[u8]) -> &[u8]
    requires { opens_file text.now ≡ true }
    ensures { result.now ≡ file_name text.now }
{
    without_quotes(trimmed(dark(&dark(text)[4..])))
}

/// A name that a file may have, or the rule that it breaks.
pub(crate) fn judged(name: &[u8]) -> Result<&str, Code>
    ensures ok { IfOk result (λ s. judged name.now ≡ Ok s.now) }
    ensures err { IfErr result (λ code. judged name.now ≡ Err code) }
{
    let Ok(name) = str::from_utf8(name) else {
        return Err(Code::L1);
    };
    if name.is_empty() {
        Err(Code::S1)
    } else if name.len() > MAX_NAME {
        Err(Code::L5)
    } else {
        Ok(name)
    }
}

/// The place of the first byte that is not white.
pub(crate) fn first_place(line: u32, text: &[u8]) -> Place
    requires text { length text.now ≤ max_command }
    requires line { line ≤ max_lines }
    ensures { result ≡ first_place line text.now }
{
    behind_all(Place { line, col: 1 }, &text[..white_length(text)])
}
