ghost use Rattle.std.specs.Prelude.{◌≡◌};
ghost use Rattle.use_session.specs.Lines.{fault_in, place_in_stream, refusal_in};

use soil_exec::ExecFault;
use use_text::{Place, Refusal};

/// The place in the stream of a place in a command that begins in this line.
pub(crate) fn place_in_stream(line: u32, place: Place) -> Place
    ensures { result ≡ place_in_stream line place }
{
    Place {
        line: line.saturating_add(place.line),
        col: place.col,
    }
}

/// A refusal of a command that begins in this line, with its place in the stream.
pub(crate) fn refusal_in(line: u32, refusal: Refusal) -> Refusal
    ensures { result ≡ refusal_in line refusal }
{
    Refusal {
        code: refusal.code,
        place: place_in_stream(line, refusal.place),
    }
}

/// The same of what refuses its statements.
pub(crate) fn fault_in(line: u32, fault: ExecFault) -> ExecFault
    ensures { result ≡ fault_in line fault }
{
    match fault {
        ExecFault::Memory => ExecFault::Memory,
        ExecFault::Refused(refusal) => ExecFault::Refused(refusal_in(line, refusal)),
        ExecFault::Broken {
            refusal,
            contract,
            value,
        } => ExecFault::Broken {
            refusal: refusal_in(line, refusal),
            contract,
            value,
        },
    }
}
