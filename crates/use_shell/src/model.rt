ghost use Rattle.std.specs.Prelude.{◌≡◌, ◌≤◌, All, IfOk, IfSome, IsOkUnless, length};
ghost use Rattle.std.specs.FinMap.{get};
ghost use Rattle.use_io.specs.Shelves.{KeepsFiles};
ghost use Rattle.use_text.specs.Places.{place_at};
ghost use Rattle.use_text.specs.Refusals.{refusal_at};
ghost use Rattle.use_text.specs.Tokens.{IsWithin};
ghost use Rattle.grammar_core.specs.Arena.{root_tree};
ghost use Rattle.model_check.specs.Programs.{program_in};
ghost use Rattle.use_syntax.specs.Language.{language};
ghost use Rattle.use_shell.specs.Models.{max_model, model_of_file, program_of_text};
ghost use Rattle.use_shell.specs.ModelReadings.{Gives, ReadsModel, StopsByMemory};

use crate::Stop;
use grammar_core::{Grammar, GrammarFault};
use model_check::{ModelFault, check_model};
use ocl_program::Program;
use std::alloc::Global;
use use_io::{Shelf, ShelfFault};
use use_syntax::{Parsed, SyntaxFault, grammar, read_model};
use use_text::{Code, Place, Refusal};

/// The most bytes of a model file.
const MAX_MODEL: u32 = 4_194_304;

/// Why a model file gives no program.
#[derive(Clone, Copy, Debug, PartialEq, Eq)]
pub enum NoProgram {
    /// The first rule that it breaks.
    Refused(Refusal),
    /// It was not read to its end.
    Stopped(Stop),
}

/// The program of a model that was read.
fn checked(alloc: Global, parsed: &Parsed) -> Result<Program, NoProgram>
    requires { All (IsWithin (length parsed.now.text)) parsed.now.tokens }
    ensures model { Gives (program_in parsed.now.text parsed.now.tokens (root_tree parsed.now.tree)) result }
    ensures memory { StopsByMemory result }
{
    match check_model(alloc, parsed) {
        Ok(program) => Ok(program),
        Err(ModelFault::Refused(refusal)) => Err(NoProgram::Refused(refusal)),
        Err(ModelFault::Memory) => Err(NoProgram::Stopped(Stop::Memory)),
    }
}

/// The grammar of the language.
pub fn language(alloc: Global) -> Result<Grammar, Stop>
    ensures table { IfOk result (λ g. g ≡ language) }
    ensures memory { IsOkUnless result Stop.Memory }
{
    match grammar(alloc) {
        Ok(grammar) => Ok(grammar),
        Err(GrammarFault::Memory) => Err(Stop::Memory),
        Err(GrammarFault::Unfit { prod: _ }) => unreachable!(),
    }
}

/// The program of a text: the one place where the text of a model is read.
#[tactic(auto, unfolding(crate::specs::Models::program_of_text))]
fn model_of_text(alloc: Global, grammar: &Grammar, text: &[u8]) -> Result<Program, NoProgram>
    requires table { grammar.now ≡ language }
    requires text { length text.now ≤ max_model }
    ensures model { Gives (program_of_text text.now) result }
    ensures memory { StopsByMemory result }
{
    match read_model(alloc, grammar, text) {
        Ok(parsed) => checked(alloc, &parsed),
        Err(SyntaxFault::Refused(refusal)) => Err(NoProgram::Refused(refusal)),
        Err(SyntaxFault::Memory) => Err(NoProgram::Stopped(Stop::Memory)),
    }
}

/// A refusal of the whole file, which could not be read.
fn of_file(code: Code) -> NoProgram
    ensures { result ≡ NoProgram.Refused (refusal_at code (place_at 0 0)) }
{
    NoProgram::Refused(Refusal {
        code,
        place: Place { line: 0, col: 0 },
    })
}

/// The program of the model of this name.
pub fn model_of_file<F: Shelf>(
    alloc: Global,
    grammar: &Grammar,
    shelf: &mut F,
    name: &str,
) -> Result<Program, NoProgram>
    requires table { grammar.now ≡ language }
    ensures model { IfSome (F.files shelf.old) (λ files. Gives (model_of_file (get files name.now)) result) }
    ensures cause { ReadsModel (F.faults shelf.old) (F.faults shelf.new) result }
    ensures files { KeepsFiles (F.files shelf.old) (F.files shelf.new) }
{
    match shelf.fetch(alloc, name, MAX_MODEL) {
        Ok(text) => model_of_text(alloc, grammar, &text),
        Err(ShelfFault::Missing) => Err(of_file(Code::F1)),
        Err(ShelfFault::TooLong) => Err(of_file(Code::F2)),
        Err(ShelfFault::Failed) => Err(NoProgram::Stopped(Stop::Read)),
        Err(ShelfFault::Memory) => Err(NoProgram::Stopped(Stop::Memory)),
    }
}
