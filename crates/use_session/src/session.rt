ghost use Rattle.std.specs.Prelude.{◌≡◌, ◌++◌, ◌↔◌, ◌+◌, ◌&&◌, All, IsTrue, IsErrOf, IfOk, IfSome, OnOk, Ok, false, is_err, length, nat_eq};
ghost use Rattle.std.specs.Option.{option_copied};
ghost use Rattle.use_text.specs.Codes.{code_of};
ghost use Rattle.use_text.specs.Cuts.{IsCommand};
ghost use Rattle.use_text.specs.Limits.{max_lines};
ghost use Rattle.use_text.specs.Refusals.{refusal_at};
ghost use Rattle.use_text.specs.Tokens.{IsWithin};
ghost use Rattle.use_text.specs.declared.code.Family.TheVariants.{C};
ghost use Rattle.use_text.specs.declared.cut.Fate.TheVariants.{Whole};
ghost use Rattle.grammar_core.specs.Arena.{root_tree};
ghost use Rattle.use_syntax.specs.Language.{language};
ghost use Rattle.use_syntax.specs.Reading.{parsed, read_command};
ghost use Rattle.ocl_core.specs.declared.program.ProgramParts.{ProgramParts};
ghost use Rattle.command_cache.specs.Prepared.{AreKept, IsPrepared, Notes};
ghost use Rattle.soil_check.specs.Checks.{IsCommandOf, TakesNames};
ghost use Rattle.use_session.specs.Answering.{Answers, machine_in};
ghost use Rattle.use_session.specs.Answers.{refusal_line};
ghost use Rattle.use_session.specs.Commands.{is_exit, reading_of, start_of, word_place};
ghost use Rattle.use_session.specs.Frames.{top_bindings};
ghost use Rattle.use_session.specs.Kept.{IsKept, machine_of};
ghost use Rattle.use_session.specs.Machine.{answered, answered_reading, answered_tokens, checked, counts, open_calls, present, start, step};
ghost use Rattle.use_session.specs.Prepared.{IsFound, IsScopeAt};
ghost use Rattle.use_session.specs.Running.{MayRun};
ghost use Rattle.use_session.specs.Shell.{known};
ghost use Rattle.use_session.specs.declared.session.Turn.TheVariants as turn;

use crate::answers::{refuse, refuse_at};
use crate::exits::{C3, is_exit, word_place};
use crate::file_word::is_open;
use crate::lines::refusal_in;
use crate::reading::{CommandReader, Reading};
use crate::starts::start_of;
use crate::{Machine, StoreScope};
use command_cache::{Commands, Noted, Prepared};
use grammar_core::Grammar;
use ocl_program::Program;
use ocl_values::Text;
use soil_check::{Checked, TypeFault};
use std::alloc::{AllocError, Global};
use std::marker::Model;
use std::sync::ledger::Ledger;
use thiserror::Error;
use use_steps::Steps;
use use_syntax::Parsed;
use use_text::{Code, Cut, Fate, Place, Token};

/// How a command ended.
#[derive(Debug, PartialEq, Eq, Drop)]
pub enum Turn {
    /// It was accepted.
    Quiet,
    /// It was refused, by this rule.
    Refused(Code),
    /// It was a check that wrote a broken multiplicity, or a verdict that is not OK, or a call was left
    /// with a postcondition that is not true.
    CheckFailed,
    /// It asks for the commands of a file of this name, or for a refusal at this place.
    Fetch { name: Text, place: Place },
    /// It ends the run.
    Quit,
}

/// Why a command was not answered.
#[derive(Clone, Copy, Debug, PartialEq, Eq, Error)]
pub enum SessionFault {
    #[error("out of memory")]
    Memory,
    /// An earlier command wanted memory.
    #[error("the session is over")]
    Over,
}

/// A machine that answers one command after another. Once a command has wanted memory, it is over.
#[derive(Drop)]
pub struct Session {
    grammar: Grammar,
    reader: CommandReader,
    commands: Commands,
    machine: Machine,
    over: bool,
}

/// Answers a checked command that begins in this line.
fn answer_checked<L: Ledger>(
    machine: &mut Machine,
    line: u32,
    tokens: &[Token],
    command: &Checked,
    out: &mut Vec<u8>,
    steps: &mut Steps<L>,
) -> Result<Turn, AllocError>
    requires fit { MayRun machine.old.program.model command.now }
    requires kept { IsKept machine.old }
    ensures { Answers (answered (machine_of machine.old) line (start_of line tokens.now) (word_place (start_of line tokens.now) tokens.now) (Ok command.now)) out.old.items steps.old result machine.new out.new.items steps.new }
{
    let at = start_of(line, tokens);
    machine.answer(line, at, word_place(at, tokens), command, out, steps)
}

/// Whether a command leaves a call, and none is open.
fn leaves_none(machine: &Machine, tokens: &[Token]) -> bool
    ensures { result ≡ (is_exit tokens.now && nat_eq (length (open_calls (machine_of machine.now))) 0) }
{
    is_exit(tokens) && machine.has_no_call()
}

/// Refuses a command that leaves a call where none is open.
fn refuse_exit(line: u32, tokens: &[Token], out: &mut Vec<u8>) -> Result<Turn, AllocError>
    ensures bytes { OnOk result (out.new.items ≡ out.old.items ++ refusal_line (refusal_at (code_of C 3) (word_place (start_of line tokens.now) tokens.now))) }
    ensures turn { IfOk result (λ t. t ≡ turn.Refused (code_of C 3)) }
{
    refuse_at(C3, word_place(start_of(line, tokens), tokens), out)
}

/// Answers a command that is kept.
fn answer_prepared<L: Ledger>(
    machine: &mut Machine,
    line: u32,
    prepared: &Prepared,
    out: &mut Vec<u8>,
    steps: &mut Steps<L>,
) -> Result<Turn, AllocError>
    requires fit { MayRun machine.old.program.model prepared.now.command }
    requires kept { IsKept machine.old }
    ensures { Answers (answered_tokens (machine_of machine.old) line prepared.now.noted.tokens (Ok prepared.now.command)) out.old.items steps.old result machine.new out.new.items steps.new }
{
    let tokens = prepared.noted.tokens.as_slice();
    if leaves_none(machine, tokens) {
        return refuse_exit(line, tokens, out);
    }
    answer_checked(machine, line, tokens, &prepared.command, out, steps)
}

/// What tells a checked command again, if its text came before.
fn noted_among(
    machine: &Machine,
    scope: &StoreScope<'_>,
    commands: &mut Commands,
    read: &Parsed,
) -> Result<Option<Noted>, AllocError>
    requires text { All (IsWithin (length read.now.text)) read.now.tokens }
    requires scope { IsScopeAt (machine_of machine.now) scope.now }
    ensures same { commands.new ≡ commands.old }
    ensures noted { IfOk result (λ n. IfSome n (Notes (known (present (machine_of machine.now))) (top_bindings machine.now.program.model (open_calls (machine_of machine.now))) read.now.text read.now.tokens)) }
{
    commands.note(scope, read)
}

/// The same among the names of the present state.
fn noted(
    machine: &Machine,
    commands: &mut Commands,
    read: &Parsed,
) -> Result<Option<Noted>, AllocError>
    requires text { All (IsWithin (length read.now.text)) read.now.tokens }
    requires kept { IsKept machine.now }
    ensures same { commands.new ≡ commands.old }
    ensures noted { IfOk result (λ n. IfSome n (Notes (known (present (machine_of machine.now))) (top_bindings machine.now.program.model (open_calls (machine_of machine.now))) read.now.text read.now.tokens)) }
{
    let scope = machine.scope()?;
    noted_among(machine, &scope, commands, read)
}

/// Answers a checked command, and keeps it if what tells it again was noted.
fn answer_noted<L: Ledger>(
    machine: &mut Machine,
    commands: &mut Commands,
    line: u32,
    tokens: &[Token],
    noted: Option<Noted>,
    command: Checked,
    out: &mut Vec<u8>,
    steps: &mut Steps<L>,
) -> Result<Turn, AllocError>
    requires fit { MayRun machine.old.program.model command }
    requires kept { IsKept machine.old }
    ensures answer { Answers (answered (machine_of machine.old) line (start_of line tokens.now) (word_place (start_of line tokens.now) tokens.now) (Ok command)) out.old.items steps.old result machine.new out.new.items steps.new }
    ensures commands { (p : ProgramParts) → AreKept p commands.old → IfSome noted (λ n. IsPrepared p (record { noted = n; command = command })) → AreKept p commands.new }
{
    let told = answer_checked(machine, line, tokens, &command, out, steps);
    commands.keep(noted, command);
    told
}

/// Answers a command that was read and checked. It is kept if its text came before.
fn answer_new<L: Ledger>(
    machine: &mut Machine,
    commands: &mut Commands,
    line: u32,
    read: &Parsed,
    command: Checked,
    out: &mut Vec<u8>,
    steps: &mut Steps<L>,
) -> Result<Turn, AllocError>
    requires text { All (IsWithin (length read.now.text)) read.now.tokens }
    requires reading { read_command 0 read.now.text ≡ parsed read.now.tokens (root_tree read.now.tree) }
    requires checked { checked (machine_of machine.old) read.now.text read.now.tokens (root_tree read.now.tree) ≡ Ok command }
    requires of_model { IsCommandOf machine.old.program.model command }
    requires names { TakesNames command }
    requires kept { IsKept machine.old }
    requires commands { AreKept machine.old.program commands.old }
    ensures answer { Answers (answered (machine_of machine.old) line (start_of line read.now.tokens) (word_place (start_of line read.now.tokens) read.now.tokens) (Ok command)) out.old.items steps.old result machine.new out.new.items steps.new }
    ensures commands { OnOk result (AreKept machine.old.program commands.new) }
{
    match noted(machine, commands, read) {
        Err(_) => {
            drop(command);
            Err(AllocError)
        }
        Ok(noted) => {
            let tokens = read.tokens.as_slice();
            answer_noted(machine, commands, line, tokens, noted, command, out, steps)
        }
    }
}

/// Checks a command that was read, carries it out and answers it. It is kept if its text came before.
fn answer_parsed<L: Ledger>(
    machine: &mut Machine,
    commands: &mut Commands,
    line: u32,
    read: &Parsed,
    out: &mut Vec<u8>,
    steps: &mut Steps<L>,
) -> Result<Turn, AllocError>
    requires text { All (IsWithin (length read.now.text)) read.now.tokens }
    requires reading { read_command 0 read.now.text ≡ parsed read.now.tokens (root_tree read.now.tree) }
    requires kept { IsKept machine.old }
    requires commands { AreKept machine.old.program commands.old }
    ensures answer { Answers (answered_tokens (machine_of machine.old) line read.now.tokens (checked (machine_of machine.old) read.now.text read.now.tokens (root_tree read.now.tree))) out.old.items steps.old result machine.new out.new.items steps.new }
    ensures commands { OnOk result (AreKept machine.old.program commands.new) }
{
    let tokens = read.tokens.as_slice();
    if leaves_none(machine, tokens) {
        return refuse_exit(line, tokens, out);
    }
    match machine.check(read) {
        Err(TypeFault::Refused(refusal)) => refuse(refusal_in(line, refusal), out),
        Err(TypeFault::Memory) => Err(AllocError),
        Ok(command) => answer_new(machine, commands, line, read, command, out, steps),
    }
}

/// Reads a command that opens no file, and answers it.
fn answer_read<L: Ledger>(
    machine: &mut Machine,
    reader: &mut CommandReader,
    commands: &mut Commands,
    grammar: &Grammar,
    cut: &Cut,
    out: &mut Vec<u8>,
    steps: &mut Steps<L>,
) -> Result<Turn, AllocError>
    requires table { grammar.now ≡ language }
    requires command { IsCommand max_lines cut.now }
    requires kept { IsKept machine.old }
    requires commands { AreKept machine.old.program commands.old }
    ensures answer { Answers (answered_reading (machine_of machine.old) cut.now.first_line cut.now.text (reading_of cut.now)) out.old.items steps.old result machine.new out.new.items steps.new }
    ensures commands { OnOk result (AreKept machine.old.program commands.new) }
{
    match reader.read_cut(grammar, cut)? {
        Reading::Refused(refusal) => refuse(refusal_in(cut.first_line, refusal), out),
        Reading::Parsed(parsed) => {
            let told = answer_parsed(machine, commands, cut.first_line, &parsed, out, steps);
            let Parsed { tree, tokens, .. } = parsed;
            reader.take_back(tokens, tree)?;
            told
        }
    }
}

/// The command that was cut out whole, if it is kept.
fn found_among<'a>(
    machine: &Machine,
    scope: &StoreScope<'_>,
    commands: &'a Commands,
    cut: &Cut,
) -> Option<&'a Prepared>
    requires whole { cut.now.fate ≡ Whole }
    requires scope { IsScopeAt (machine_of machine.now) scope.now }
    requires commands { AreKept machine.now.program commands.now }
    ensures { IfSome (option_copied result) (IsFound (machine_of machine.now) cut.now) }
{
    commands.find(scope, cut.text.as_slice())
}

/// The same among the names of the present state.
fn found_whole<'a>(
    machine: &Machine,
    commands: &'a Commands,
    cut: &Cut,
) -> Result<Option<&'a Prepared>, AllocError>
    requires whole { cut.now.fate ≡ Whole }
    requires kept { IsKept machine.now }
    requires commands { AreKept machine.now.program commands.now }
    ensures { IfOk result (λ x. IfSome (option_copied x) (IsFound (machine_of machine.now) cut.now)) }
{
    let scope = machine.scope()?;
    Ok(found_among(machine, &scope, commands, cut))
}

/// The command that was cut out, if it is kept.
fn found<'a>(
    machine: &Machine,
    commands: &'a Commands,
    cut: &Cut,
) -> Result<Option<&'a Prepared>, AllocError>
    requires kept { IsKept machine.now }
    requires commands { AreKept machine.now.program commands.now }
    ensures { IfOk result (λ x. IfSome (option_copied x) (IsFound (machine_of machine.now) cut.now)) }
{
    match cut.fate {
        Fate::Whole => found_whole(machine, commands, cut),
        Fate::TooLong | Fate::Unfinished => Ok(None),
    }
}

/// Answers a command that opens no file.
fn answer_kept<L: Ledger>(
    machine: &mut Machine,
    reader: &mut CommandReader,
    commands: &mut Commands,
    grammar: &Grammar,
    cut: &Cut,
    out: &mut Vec<u8>,
    steps: &mut Steps<L>,
) -> Result<Turn, AllocError>
    requires table { grammar.now ≡ language }
    requires command { IsCommand max_lines cut.now }
    requires kept { IsKept machine.old }
    requires commands { AreKept machine.old.program commands.old }
    ensures answer { Answers (answered_reading (machine_of machine.old) cut.now.first_line cut.now.text (reading_of cut.now)) out.old.items steps.old result machine.new out.new.items steps.new }
    ensures commands { OnOk result (AreKept machine.old.program commands.new) }
{
    match found(machine, commands, cut)? {
        Some(prepared) => answer_prepared(machine, cut.first_line, prepared, out, steps),
        None => answer_read(machine, reader, commands, grammar, cut, out, steps),
    }
}

/// Answers a command.
fn answer<L: Ledger>(
    machine: &mut Machine,
    reader: &mut CommandReader,
    commands: &mut Commands,
    grammar: &Grammar,
    cut: &Cut,
    out: &mut Vec<u8>,
    steps: &mut Steps<L>,
) -> Result<Turn, AllocError>
    requires table { grammar.now ≡ language }
    requires command { IsCommand max_lines cut.now }
    requires kept { IsKept machine.old }
    requires commands { AreKept machine.old.program commands.old }
    ensures answer { Answers (step (machine_of machine.old) cut.now) out.old.items steps.old result machine.new out.new.items steps.new }
    ensures commands { OnOk result (AreKept machine.new.program commands.new) }
{
    if is_open(cut) {
        machine.open_file(cut, out)
    } else {
        answer_kept(machine, reader, commands, grammar, cut, out, steps)
    }
}

impl Model for Session {
    ghost use Rattle.std.specs.Prelude.{◌≡◌, false};
    ghost use Rattle.std.specs.Coded.{codes};
    ghost use Rattle.class_model.specs.contracts.types.OclType as types;
    ghost use Rattle.ocl_values.specs.contracts.value.Value as values;
    ghost use Rattle.ocl_core.specs.contracts.expression.Expr as expressions;
    ghost use Rattle.ocl_core.specs.contracts.statement.Stmt as statements;
    ghost use Rattle.use_syntax.specs.Language.{language};
    ghost use Rattle.use_session.specs.Answering.{Held};
    ghost use Rattle.command_cache.specs.Prepared.{AreKept};
    ghost use Rattle.use_session.specs.Kept.{IsKept};

    ghost Value = { Held };

    ghost coded = { Prim.hlevel (codes, types.the_row.coded, values.the_row.coded, expressions.the_row.coded, statements.the_row.coded) };

    ghost view = { λ s. record { over = s.over; program = s.machine.program; store = s.machine.store; frames = s.machine.frames; history = s.machine.history } };

    ghost invariant = { λ s. (s.grammar ≡ language) × (s.over ≡ false → IsKept s.machine × AreKept s.machine.program s.commands) };
}

impl Session {
    /// A session before its first command. It reads commands by the grammar of the language, and
    /// checks them against a program.
    pub fn new(alloc: Global, grammar: Grammar, program: Program) -> Result<Session, AllocError>
        requires { grammar ≡ language }
        ensures over { IfOk result (λ s. s.over ≡ false) }
        ensures machine { IfOk result (λ s. machine_in s ≡ start program) }
    {
        Ok(Session {
            grammar,
            reader: CommandReader::new(alloc)?,
            commands: Commands::new(alloc)?,
            machine: Machine::new(alloc, program)?,
            over: false,
        })
    }

    /// How many objects are live, and how many links there are.
    pub fn counts(&self) -> (u32, u32)
        ensures { result ≡ counts (machine_in self.now) }
    {
        self.machine.counts()
    }

    /// Carries out a command and appends its answer to `out`. Each unit that an evaluation spends is
    /// counted. After want of memory, `out` is in no stated condition.
    pub fn command<L: Ledger>(
        &mut self,
        cut: &Cut,
        out: &mut Vec<u8>,
        steps: &mut Steps<L>,
    ) -> Result<Turn, SessionFault>
        requires { IsCommand max_lines cut.now }
        ensures bytes { OnOk result (out.new.items ≡ out.old.items ++ (step (machine_in self.old) cut.now).bytes) }
        ensures turn { IfOk result (λ turn. turn ≡ (step (machine_in self.old) cut.now).turn) }
        ensures machine { OnOk result (machine_in self.new ≡ (step (machine_in self.old) cut.now).machine) }
        ensures units { OnOk result (steps.new ≡ steps.old + (step (machine_in self.old) cut.now).units) }

        // Want of memory ends the session, and only an ended one is over.
        ensures over { IsErrOf result SessionFault.Over ↔ IsTrue self.old.over }
        ensures after { self.new.over ≡ is_err result }
        ensures unchanged { IsErrOf result SessionFault.Over → (self.new ≡ self.old) × (out.new.items ≡ out.old.items) × (steps.new ≡ steps.old) }
    {
        if self.over {
            return Err(SessionFault::Over);
        }
        let answered = answer(
            &mut self.machine,
            &mut self.reader,
            &mut self.commands,
            &self.grammar,
            cut,
            out,
            steps,
        );
        match answered {
            Ok(turn) => Ok(turn),
            Err(_) => {
                self.over = true;
                Err(SessionFault::Memory)
            }
        }
    }
}
