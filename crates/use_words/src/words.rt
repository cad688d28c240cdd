ghost use Rattle.std.specs.Prelude.{◌≡◌, [], IfOk, IsErrOf, IsOkUnless, Some, None, map, true};
ghost use Rattle.clap.specs.Faults.{fault_of, is_simple_and_free};
ghost use Rattle.clap.specs.Matches.{found_of};
ghost use Rattle.clap.specs.Simple.{app_of, is_simple, matches_of};
ghost use Rattle.clap.specs.Walk.{rows_of};
ghost use Rattle.use_words.specs.CommandLine.{asked, asked_in, fits, is_refused, usage_line, words_of};

use crate::command::command_line;
use crate::found::{is_set, word};
use clap::error::ErrorKind;
use clap::{ArgMatches, Command};
use std::alloc::{AllocError, Global};
use thiserror::Error;

/// What the words of the command line ask for.
#[derive(Clone, Copy, Debug, PartialEq, Eq)]
pub struct Words<'a> {
    /// Each command is written before its answer.
    pub echo: bool,
    /// A refused command or a failed check is told by the exit status.
    pub strict: bool,
    /// The name of the model's file.
    pub model: &'a str,
}

/// Why words ask for nothing.
#[derive(Clone, Copy, Debug, PartialEq, Eq, Error)]
pub enum WordFault {
    #[error("out of memory")]
    Memory,
    /// They are not of the form that the usage line shows.
    #[error("usage")]
    Usage,
}

impl From<AllocError> for WordFault {
    ghost use Rattle.std.specs.Prelude.{◌≡◌};
    ghost use Rattle.use_words.specs.declared.words.WordFault.TheVariants.{Memory};

    ghost from_gives = { λ _ e. e ≡ Memory };

    fn from(_: AllocError) -> Self {
        WordFault::Memory
    }
}

/// The line that tells how the program is called.
pub fn usage_line() -> &'static str
    ensures { result.now ≡ usage_line }
{
    "usage: usesh [--echo] [--strict] MODEL | usesh --sample N\n"
}

/// What a fault of reading words is told as.
fn fault(kind: ErrorKind) -> WordFault
    ensures { result ≡ WordFault.Usage → kind ≡ ErrorKind.OutOfMemory → ⊥ }
{
    match kind {
        ErrorKind::OutOfMemory => WordFault::Memory,
        _ => WordFault::Usage,
    }
}

/// What a simple command finds in words.
fn matches_in<'a>(command: Command<'a>, words: &'a [String]) -> Result<ArgMatches<'a>, WordFault>
    requires simple { is_simple (app_of command) ≡ true }
    requires free { is_simple_and_free (app_of command) ≡ true }
    ensures fit { IfOk result (λ m. fault_of (app_of command.entry) (words_of words.entry.now) ≡ []) }
    ensures rows { IfOk result (λ m. rows_of (found_of m) ≡ matches_of (app_of command.entry) (words_of words.entry.now)) }
    ensures usage { IsErrOf result WordFault.Usage → is_refused (app_of command.entry) (words_of words.entry.now) ≡ true }
{
    match command.try_get_matches_from(words) {
        Ok(matches) => Ok(matches),
        Err(e) => Err(fault(e.kind())),
    }
}

/// What was found, as what it asks for.
fn words_in<'a>(matches: &ArgMatches<'a>) -> Result<Words<'a>, WordFault>
    ensures ok { IfOk result (λ w. asked_in (rows_of (found_of matches.now)) ≡ Some (fits w)) }
    ensures usage { IsErrOf result WordFault.Usage → asked_in (rows_of (found_of matches.now)) ≡ None }
    ensures only { IsOkUnless result WordFault.Usage }
{
    match word(matches, "model") {
        None => Err(WordFault::Usage),
        Some(model) => Ok(Words {
            echo: is_set(matches, "echo"),
            strict: is_set(matches, "strict"),
            model,
        }),
    }
}

/// Reads the words of a command line, of which the first is the program's name.
pub fn read_words<'a>(alloc: Global, words: &'a [String]) -> Result<Words<'a>, WordFault>
    ensures ok { IfOk result (λ w. asked (words_of words.entry.now) ≡ Some (fits w)) }
    ensures usage { IsErrOf result WordFault.Usage → asked (words_of words.entry.now) ≡ None }
{
    let command = command_line(alloc)?;
    let matches = matches_in(command, words)?;
    words_in(&matches)
}
