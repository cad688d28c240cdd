ghost use Rattle.std.specs.Prelude.{◌≡◌};
ghost use Rattle.use_syntax.specs.Reading.{place_in};
ghost use Rattle.use_session.specs.Commands.{start_of};

use crate::lines::place_in_stream;
use use_nodes::place_of_first;
use use_text::{Place, Token};

/// Where a command stands: its first token, and the one behind it.
#[derive(Clone, Copy, Debug, PartialEq, Eq)]
pub(crate) struct Start {
    pub(crate) first: Place,
    pub(crate) second: Place,
}

/// The place of the token behind the first; where there is none, no place of the text.
fn second_place(tokens: &[Token]) -> Place
    ensures { result ≡ place_in tokens.now 1 }
{
    match tokens.get(1) {
        Some(token) => token.place,
        None => Place { line: 0, col: 0 },
    }
}

/// Where a command of these tokens stands that begins in this line.
pub(crate) fn start_of(line: u32, tokens: &[Token]) -> Start
    ensures { result ≡ start_of line tokens.now }
{
    Start {
        first: place_in_stream(line, place_of_first(0, tokens)),
        second: place_in_stream(line, second_place(tokens)),
    }
}
