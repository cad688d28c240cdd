ghost use Rattle.std.specs.Prelude.{◌≡◌};

/// How a run ended.
#[derive(Clone, Copy, Debug, PartialEq, Eq)]
pub enum Status {
    /// The input was read to its end, or to `quit`.
    Done,
    /// The words are not of the form that the usage line shows.
    Usage,
    /// The model file is missing, too long, or refused by a rule.
    ModelRefused,
    /// The model, a file or the input could not be read.
    ReadFault,
    /// The output could not be written.
    WriteFault,
    /// Memory was wanting.
    Memory,
    /// The input has more than 16,777,216 bytes.
    TooLong,
    /// The same as Done, where `--strict` is asked for, and a command was refused or a check failed.
    Strict,
}

impl Status {
    ghost use Rattle.use_shell.specs.Numbers.{number_of};

    /// The exit status of the program.
    pub fn number(self) -> u8
        ensures { result ≡ number_of self }
    {
        self as u8
    }
}
