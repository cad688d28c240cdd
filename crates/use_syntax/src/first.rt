ghost use Rattle.std.specs.Prelude.{◌≡◌};
ghost use Rattle.use_syntax.specs.Reading.{place_of_first};

use use_text::{Place, Token};

/// The place of the first token of a text, whose first line has this number.
pub fn place_of_first(first_line: u32, tokens: &[Token]) -> Place
    ensures { result ≡ place_of_first first_line tokens.now }
{
    match tokens.first() {
        Some(token) => token.place,
        None => Place {
            line: first_line,
            col: 1,
        },
    }
}
