ghost use Rattle.std.specs.Prelude.{◌≡◌};
ghost use Rattle.use_shell.specs.Output.{read_status};

use crate::Status;
use std::alloc::Global;

/// How commands are played.
#[derive(Clone, Copy)]
pub(crate) struct Manner {
    pub(crate) alloc: Global,
    /// Each command is written before its answer.
    pub(crate) echo: bool,
    /// A refused command or a failed check is told by the status.
    pub(crate) strict: bool,
    /// How many files may be opened inside one another.
    pub(crate) files: u32,
}

impl Manner {
    /// The same, where so many files may still be opened.
    pub(crate) fn within(self, files: u32) -> Manner
        ensures { result ≡ record self { files = files } }
    {
        Manner {
            alloc: self.alloc,
            echo: self.echo,
            strict: self.strict,
            files,
        }
    }

    /// The status of an input that was read to its end, or to a command that ended the run.
    pub(crate) fn status(self, failed: bool) -> Status
        ensures { result ≡ read_status self.strict failed }
    {
        if self.strict && failed {
            Status::Strict
        } else {
            Status::Done
        }
    }
}
