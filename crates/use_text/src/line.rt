ghost use Rattle.std.specs.Prelude.{◌≡◌, ◌≤◌, ◌<◌, IfSome, IfNone, length, drop, take_while, slice_index, slice_range};
ghost use Rattle.std.specs.List.{list_all};
ghost use Rattle.use_text.specs.Lines.{IsInLine, is_blank, dark_part};

/// Where the line that begins at `at` ends, if a line feed ends it.
pub fn line_end(bytes: &[u8], at: usize) -> Option<usize>
    requires { at ≤ length bytes.now }
    ensures within { IfSome result (λ end. (at ≤ end) × (end < length bytes.now)) }
    ensures feed { IfSome result (λ end. slice_index bytes.now end ≡ 10) }
    ensures ended { IfSome result (λ end. IsInLine (slice_range bytes.now at end)) }
    ensures open { IfNone result (IsInLine (drop at bytes.now)) }
{
    let mut end = at;
    'bytes: while end < bytes.len() {
        if bytes[end] == b'\n' {
            return Some(end);
        }
        end += 1;
    }
    None
}

fn is_blank(b: u8) -> bool
    ensures { result ≡ is_blank b }
{
    b == b' ' || b == b'\t' || b == b'\r'
}

fn blank_length(line: &[u8]) -> usize
    ensures count { result ≡ length (take_while is_blank line.now) }
    ensures within { result ≤ length line.now }
{
    line.iter().take_while(|b| is_blank(**b)).count()
}

/// A line from its first byte on that is not white.
pub fn dark_part(line: &[u8]) -> &[u8]
    ensures { result.now ≡ dark_part line.now }
{
    &line[blank_length(line)..]
}

pub fn is_all_blank(bytes: &[u8]) -> bool
    ensures { result ≡ list_all is_blank bytes.now }
{
    bytes.iter().all(|b| is_blank(*b))
}
