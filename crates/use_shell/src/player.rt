ghost use Rattle.std.specs.Prelude.{◌≡◌, ◌+◌, ◌++◌, [], IfOk, OnOk, OnErr, IsOkUnless, false, true};
ghost use Rattle.use_text.specs.Cuts.{IsCommand};
ghost use Rattle.use_text.specs.Limits.{max_lines};
ghost use Rattle.use_syntax.specs.Language.{language};
ghost use Rattle.use_session.specs.Answering.{machine_in};
ghost use Rattle.use_session.specs.Answers.{refusal_line};
ghost use Rattle.use_session.specs.Machine.{start, step};
ghost use Rattle.use_shell.specs.Echo.{echoed};
ghost use Rattle.use_shell.specs.Endings.{AppendsFront};
ghost use Rattle.use_shell.specs.Plays.{Puts};
ghost use Rattle.use_shell.specs.Stops.{StopsByWrite};

use crate::Stop;
use crate::echo::append_echo;
use crate::moves::put_all;
use grammar_core::Grammar;
use ocl_program::Program;
use std::alloc::{AllocError, Global};
use std::sync::ledger::Ledger;
use use_io::Sink;
use use_session::{Session, SessionFault, Turn};
use use_steps::Steps;
use use_text::{Cut, Refusal};

/// The most bytes of answers that wait behind a command.
const MAX_WAITING: usize = 65_536;

/// A session, the answers that were not written yet, and whether a command was refused or a check
/// failed.
#[derive(Drop)]
pub(crate) struct Player {
    pub(crate) session: Session,
    pub(crate) waiting: Vec<u8>,
    pub(crate) failed: bool,
}

impl Player {
    /// A player before the first command.
    pub(crate) fn new(
        alloc: Global,
        grammar: Grammar,
        program: Program,
    ) -> Result<Player, AllocError>
        requires { grammar ≡ language }
        ensures machine { IfOk result (λ p. (machine_in p.session) ≡ start program) }
        ensures ready { IfOk result (λ p. p.session.over ≡ false) }
        ensures waiting { IfOk result (λ p. p.waiting.items ≡ []) }
        ensures failed { IfOk result (λ p. p.failed ≡ false) }
    {
        Ok(Player {
            session: Session::new(alloc, grammar, program)?,
            waiting: Vec::new(alloc),
            failed: false,
        })
    }

    /// Writes the answers that wait.
    pub(crate) fn flush<K: Sink>(&mut self, sink: &mut K) -> Result<(), Stop>
        ensures puts { OnOk result (Puts (K.written sink.old) (K.written sink.new) self.old.waiting.items self.new.waiting.items []) }
        ensures empty { OnOk result (self.new.waiting.items ≡ []) }
        ensures err { OnErr result (AppendsFront (K.written sink.old) (K.written sink.new) self.old.waiting.items) }
        ensures session { self.new.session ≡ self.old.session }
        ensures failed { self.new.failed ≡ self.old.failed }
        ensures cause { StopsByWrite (K.faults sink.old) (K.faults sink.new) result }
    {
        put_all(sink, &self.waiting)?;
        self.waiting.clear();
        Ok(())
    }

    /// Writes the answers that wait, where they are many.
    pub(crate) fn settle<K: Sink>(&mut self, sink: &mut K) -> Result<(), Stop>
        ensures puts { OnOk result (Puts (K.written sink.old) (K.written sink.new) self.old.waiting.items self.new.waiting.items []) }
        ensures err { OnErr result (AppendsFront (K.written sink.old) (K.written sink.new) self.old.waiting.items) }
        ensures session { self.new.session ≡ self.old.session }
        ensures failed { self.new.failed ≡ self.old.failed }
        ensures cause { StopsByWrite (K.faults sink.old) (K.faults sink.new) result }
    {
        if self.waiting.len() < MAX_WAITING {
            Ok(())
        } else {
            self.flush(sink)
        }
    }

    /// Takes one step of the session, and keeps its answer.
    pub(crate) fn step<L: Ledger>(
        &mut self,
        echo: bool,
        cut: &Cut,
        steps: &mut Steps<L>,
    ) -> Result<Turn, Stop>
        requires ready { self.old.session.over ≡ false }
        requires command { IsCommand max_lines cut.now }
        ensures bytes { OnOk result (self.new.waiting.items ≡ self.old.waiting.items ++ (echoed echo cut.now ++ (step (machine_in self.old.session) cut.now).bytes)) }
        ensures turn { IfOk result (λ turn. turn ≡ (step (machine_in self.old.session) cut.now).turn) }
        ensures machine { OnOk result ((machine_in self.new.session) ≡ (step (machine_in self.old.session) cut.now).machine) }
        ensures ready { OnOk result (self.new.session.over ≡ false) }
        ensures failed { OnOk result (self.new.failed ≡ self.old.failed) }
        ensures units { OnOk result (steps.new ≡ steps.old + (step (machine_in self.old.session) cut.now).units) }
        ensures memory { IsOkUnless result Stop.Memory }
    {
        append_echo(echo, cut, &mut self.waiting)?;
        match self.session.command(cut, &mut self.waiting, steps) {
            Ok(turn) => Ok(turn),
            Err(SessionFault::Memory) => Err(Stop::Memory),
            Err(SessionFault::Over) => unreachable!(),
        }
    }

    /// Keeps a refusal.
    pub(crate) fn refuse(&mut self, refusal: Refusal) -> Result<(), Stop>
        ensures bytes { OnOk result (self.new.waiting.items ≡ self.old.waiting.items ++ refusal_line refusal) }
        ensures session { self.new.session ≡ self.old.session }
        ensures failed { OnOk result (self.new.failed ≡ true) }
        ensures memory { IsOkUnless result Stop.Memory }
    {
        refusal.append_to(&mut self.waiting)?;
        self.waiting.extend_from_slice(b"\n")?;
        self.failed = true;
        Ok(())
    }
}
