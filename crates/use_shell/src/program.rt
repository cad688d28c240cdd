ghost use Rattle.std.specs.Prelude.{◌≡◌, ◌≤◌, ◌+◌, ◌⊎◌, None, IfOk, IfSome, OnOk, OnErr, IsErrOf, IsOkUnless, true};
ghost use Rattle.std.specs.Option.{ForSome, option_map};
ghost use Rattle.std.specs.Io.KnownBytes.{Appends};
ghost use Rattle.use_io.specs.Causes.{Rose};
ghost use Rattle.use_syntax.specs.Language.{language};
ghost use Rattle.use_words.specs.CommandLine.{fits, usage_line, words_of};
ghost use Rattle.use_session.specs.Answers.{refusal_line};
ghost use Rattle.use_shell.specs.Endings.{AnswersTaken, AppendsFront, HasModelCause, HasNotFailed, HasStrictCause, HasUsageCause, IsBounded, IsLong, IsReadOut, IsTaken, IsTooLong, IsWithinBudget, IsWithinLimit, LeavesSource, NoneRose, RunEnds, RunIsComplete, WhereTold};
ghost use Rattle.use_shell.specs.Finishes.{CommandsEnd, IsFinal, IsPlayed, RunFinishes, RunStops, StopsByModel, StopsByShelf, StopsByUsage, StopsUntouched};
ghost use Rattle.use_shell.specs.Output.{max_files};
ghost use Rattle.use_shell.specs.Plays.{given};
ghost use Rattle.use_shell.specs.Stops.{StopsByWrite};
ghost use Rattle.use_shell.specs.Words.{wanted};

use crate::model::{NoProgram, language, model_of_file};
use crate::moves::put_all;
use crate::play::play_source;
use crate::{Manner, Status, Stop};
use grammar_core::Grammar;
use ocl_program::Program;
use std::alloc::Global;
use std::sync::ledger::Ledger;
use use_io::{Shelf, Sink, Source};
use use_steps::Steps;
use use_text::Refusal;
use use_words::{WordFault, Words, read_words, usage_line};

/// The most bytes of an input.
const MAX_INPUT: usize = 16_777_216;

/// How many files may be opened inside one another.
const MAX_FILES: u32 = 8;

/// Tells how the program is called.
fn show_usage<K: Sink>(sink: &mut K) -> Result<Status, Stop>
    ensures ok { OnOk result (Appends (K.written sink.old) (K.written sink.new) usage_line) }
    ensures status { IfOk result (λ status. status ≡ Status.Usage) }
    ensures err { OnErr result (AppendsFront (K.written sink.old) (K.written sink.new) usage_line) }
    ensures cause { StopsByWrite (K.faults sink.old) (K.faults sink.new) result }
{
    put_all(sink, usage_line().as_bytes())?;
    Ok(Status::Usage)
}

/// Tells why the model is refused.
fn show_refusal<K: Sink>(alloc: Global, refusal: Refusal, sink: &mut K) -> Result<Status, Stop>
    ensures ok { OnOk result (Appends (K.written sink.old) (K.written sink.new) (refusal_line refusal)) }
    ensures status { IfOk result (λ status. status ≡ Status.ModelRefused) }
    ensures err { OnErr result (AppendsFront (K.written sink.old) (K.written sink.new) (refusal_line refusal)) }
    ensures cause { StopsByWrite (K.faults sink.old) (K.faults sink.new) result }
{
    let mut line = refusal.to_string(alloc)?;
    line.push_str("\n")?;
    put_all(sink, line.as_bytes())?;
    Ok(Status::ModelRefused)
}

/// What the words ask for, if they are read.
#[tactic(auto, unfolding(crate::specs::Words::wanted))]
fn wanted<'a>(alloc: Global, words: &'a [String]) -> Result<Option<Words<'a>>, Stop>
    ensures wanted { IfOk result (λ asked. wanted (words_of words.entry.now) ≡ option_map fits asked) }
    ensures memory { IsOkUnless result Stop.Memory }
{
    match read_words(alloc, words) {
        Ok(asked) => Ok(Some(asked)),
        Err(WordFault::Usage) => Ok(None),
        Err(WordFault::Memory) => Err(Stop::Memory),
    }
}

/// How the commands are played that words ask for.
fn manner_of(alloc: Global, asked: &Words<'_>) -> Manner
    ensures echo { result.echo ≡ asked.now.echo }
    ensures strict { result.strict ≡ asked.now.strict }
    ensures files { result.files ≡ max_files }
{
    Manner {
        alloc,
        echo: asked.echo,
        strict: asked.strict,
        files: MAX_FILES,
    }
}

/// Plays the commands of a source.
fn play_commands<F: Shelf, S: Source, K: Sink, L: Ledger>(
    manner: Manner,
    grammar: Grammar,
    program: Program,
    shelf: &mut F,
    source: &mut S,
    sink: &mut K,
    steps: &mut Steps<L>,
) -> Result<Status, Stop>
    requires table { grammar ≡ language }
    requires files { manner.files ≡ max_files }
    ensures told { ForSome (F.files shelf.old) (λ held. CommandsEnd (S.left source.old) (S.left source.new) (K.written sink.old) (K.written sink.new)
        steps.old steps.new result (given program manner.echo manner.strict held)) }
    ensures bounded { IsBounded (S.left source.old) (S.left source.new) }
    ensures played { IfOk result IsPlayed }
    ensures long { IfOk result (λ status. status ≡ Status.TooLong → IsLong (S.left source.old)) }
    ensures strict { IfOk result (λ status. status ≡ Status.Strict → manner.strict ≡ true) }
    ensures fault { IsErrOf result Stop.Read → ¬ Rose (F.faults shelf.old) (F.faults shelf.new)
        → ForSome (F.files shelf.old) (λ held. AnswersTaken (S.left source.old) (S.left source.new) (K.written sink.old) (K.written sink.new)
        (given program manner.echo manner.strict held)) }
    ensures read { IsErrOf result Stop.Read → Rose (S.faults source.old) (S.faults source.new) ⊎ Rose (F.faults shelf.old) (F.faults shelf.new) }
    ensures write { IsErrOf result Stop.Write → Rose (K.faults sink.old) (K.faults sink.new) }
    ensures shelf { F.faults shelf.old ≤ F.faults shelf.new }
{
    play_source(
        manner, grammar, program, MAX_INPUT, source, shelf, sink, steps,
    )
}

/// Plays the words, and tells how the run ended, or what stopped it.
#[tactic(auto, using(crate::proofs::MoveLemmas::nothing_taken))]
fn play_words<F: Shelf, S: Source, K: Sink, L: Ledger>(
    alloc: Global,
    words: &[String],
    shelf: &mut F,
    source: &mut S,
    sink: &mut K,
    steps: &mut Steps<L>,
) -> Result<Status, Stop>
    ensures bytes { RunFinishes (words_of words.now) (F.files shelf.old) (S.left source.old) (K.written sink.old) (K.written sink.new) result }
    ensures usage { StopsByUsage (words_of words.now) result }
    ensures model { IfSome (F.files shelf.old) (StopsByModel (words_of words.now) result) }
    ensures status { IfOk result IsFinal }
    ensures bounded { IsBounded (S.left source.old) (S.left source.new) }
    ensures stops { RunStops (words_of words.now) (F.files shelf.old) (S.left source.old) (S.left source.new) result }
    ensures untouched { StopsUntouched (words_of words.now) (F.files shelf.old) (source.new ≡ source.old) result }
    ensures fault { IsErrOf result Stop.Read → ¬ Rose (F.faults shelf.old) (F.faults shelf.new)
        → WhereTold (words_of words.now) (F.files shelf.old) (AnswersTaken (S.left source.old) (S.left source.new) (K.written sink.old) (K.written sink.new)) }
    ensures read { IsErrOf result Stop.Read → Rose (S.faults source.old) (S.faults source.new) ⊎ Rose (F.faults shelf.old) (F.faults shelf.new) }
    ensures shelf { IfSome (F.files shelf.old) (λ files. StopsByShelf (words_of words.now) files (F.faults shelf.old) (F.faults shelf.new) result) }
    ensures write { IsErrOf result Stop.Write → Rose (K.faults sink.old) (K.faults sink.new) }
    ensures units { IsErrOf result Stop.Memory ⊎ IsWithinBudget (words_of words.now) (F.files shelf.old) (S.left source.old) steps.old steps.new }
{
    let Some(asked) = wanted(alloc, words)? else {
        return show_usage(sink);
    };
    let grammar = language(alloc)?;
    match model_of_file(alloc, &grammar, shelf, asked.model) {
        Ok(program) => {
            let manner = manner_of(alloc, &asked);
            play_commands(manner, grammar, program, shelf, source, sink, steps)
        }
        Err(NoProgram::Refused(refusal)) => show_refusal(alloc, refusal, sink),
        Err(NoProgram::Stopped(stop)) => Err(stop),
    }
}

/// Runs the program: reads the words and the model that they name, and then answers the commands of
/// the source, and of the files that they open, each as soon as the piece that it ends in is taken. A
/// fault ends it. What the session holds at the end is not given back, since the program ends then.
pub fn run<F: Shelf, S: Source, K: Sink, L: Ledger>(
    alloc: Global,
    words: &[String],
    shelf: &mut F,
    source: &mut S,
    sink: &mut K,
    steps: &mut Steps<L>,
) -> Status
    // Where shelf, source and sink tell their bytes: the sink's grew by exactly the output for these words, files and input, and the status
    // is the output's; or a fault came, and they grew by a front of it.
    ensures bytes { RunEnds (words_of words.now) (F.files shelf.old) (S.left source.old) (K.written sink.old) (K.written sink.new) result }

    // What was taken: all, where no command ended the run before, or through the piece whose command ended the run; and nothing where the
    // words or the model are refused. However the run ends, no more was taken than the longest input and a piece.
    ensures taken { IsReadOut result → WhereTold (words_of words.now) (F.files shelf.old) (IsTaken (S.left source.old) (S.left source.new)) }
    ensures bounded { IsBounded (S.left source.old) (S.left source.new) }
    ensures untouched { LeavesSource (words_of words.now) (F.files shelf.old) result (source.new ≡ source.old) }

    // Where the source failed, every command that ended in what was taken is answered, and nothing else, and none of them ended the run.
    ensures fault { result ≡ Status.ReadFault → ¬ Rose (F.faults shelf.old) (F.faults shelf.new)
        → WhereTold (words_of words.now) (F.files shelf.old) (AnswersTaken (S.left source.old) (S.left source.new) (K.written sink.old) (K.written sink.new)) }

    // Each answer has its cause, in every run.
    ensures usage { HasUsageCause (words_of words.now) result }
    ensures model { IfSome (F.files shelf.old) (HasModelCause (words_of words.now) (F.faults shelf.old) (F.faults shelf.new) result) }
    ensures long { result ≡ Status.TooLong → IsLong (S.left source.old) }
    ensures too_long { result ≡ Status.TooLong → WhereTold (words_of words.now) (F.files shelf.old) (IsTooLong (S.left source.old)) }
    ensures within { IsReadOut result → WhereTold (words_of words.now) (F.files shelf.old) (IsWithinLimit (S.left source.old)) }
    ensures strict { result ≡ Status.Strict → HasStrictCause (words_of words.now) (F.files shelf.old) (S.left source.old) }
    ensures passed { result ≡ Status.Done → WhereTold (words_of words.now) (F.files shelf.old) (HasNotFailed (S.left source.old)) }
    ensures read { result ≡ Status.ReadFault → Rose (S.faults source.old) (S.faults source.new) ⊎ Rose (F.faults shelf.old) (F.faults shelf.new) }
    ensures write { result ≡ Status.WriteFault → Rose (K.faults sink.old) (K.faults sink.new) }

    // Where shelf and source tell their bytes and no fault came, the status is the output's, or memory was wanting.
    ensures complete { NoneRose (S.faults source.old) (S.faults source.new) (F.faults shelf.old) (F.faults shelf.new) (K.faults sink.old) (K.faults sink.new)
        → RunIsComplete (words_of words.now) (F.files shelf.old) (S.left source.old) result }

    // Evaluations spent at most what those of the machine spend, unless memory was wanting.
    ensures units { (result ≡ Status.Memory) ⊎ IsWithinBudget (words_of words.now) (F.files shelf.old) (S.left source.old) steps.old steps.new }
{
    match play_words(alloc, words, shelf, source, sink, steps) {
        Ok(status) => status,
        Err(Stop::Read) => Status::ReadFault,
        Err(Stop::Write) => Status::WriteFault,
        Err(Stop::Memory) => Status::Memory,
    }
}
