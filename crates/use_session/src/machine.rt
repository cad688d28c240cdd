ghost use Rattle.std.specs.Prelude.{ℕ, List, ◌≡◌, ◌<◌, ◌+◌, ◌++◌, ◌∷◌, [], All, IfOk, OnOk, Ok, length, nat_eq, take, true};
ghost use Rattle.std.specs.Option.{ForSome, option_copied};
ghost use Rattle.use_text.specs.Cuts.{IsCommand};
ghost use Rattle.use_text.specs.Limits.{max_lines};
ghost use Rattle.use_text.specs.Tokens.{IsWithin};
ghost use Rattle.grammar_core.specs.Arena.{root_tree};
ghost use Rattle.ocl_values.specs.Shape.{IsWellMade};
ghost use Rattle.ocl_core.specs.Trees.{IsSound};
ghost use Rattle.ocl_eval.specs.Evaluation.{eval, max_units, told};
ghost use Rattle.ocl_program.specs.Bodies.{IsBodyOf};
ghost use Rattle.ocl_rules.specs.Typings.{Tells};
ghost use Rattle.entry_states.specs.Frames.{opened as frame_of};
ghost use Rattle.contract_frames.specs.Entering.{IsCall};
ghost use Rattle.contract_frames.specs.Holding.{all_true};
ghost use Rattle.contract_frames.specs.Judging.{pre_units, pres};
ghost use Rattle.soil_check.specs.Checks.{AreNames, IsCommandOf, IsTopicOf, TakesNames};
ghost use Rattle.use_session.specs.Answering.{Answers, TellsFault, TellsFrameFault, TellsNoneLeft};
ghost use Rattle.use_session.specs.Answers.{info_text};
ghost use Rattle.use_session.specs.Kept.{IsKept, machine_of};
ghost use Rattle.use_session.specs.FileWords.{file_name, first_place, is_open, judged};
ghost use Rattle.use_session.specs.Machine.{accepted, answered, carried_out, check_step, checked, counts, diagram, enter, entered_unless, environment, execute, exit, left_by, max_open, open_calls, opened, query, redone, reset, scene, silent, start, turn_of_check, turn_of_posts, undone};
ghost use Rattle.use_session.specs.Running.{MayRun};
ghost use Rattle.use_session.specs.Prepared.{IsScopeAt};

use crate::answers::{append_value_line, refuse, refuse_at, refuse_broken};
use crate::bindings::{bound_values, top_bindings};
use crate::file_word::{file_name, first_place, judged};
use crate::lines::fault_in;
use crate::moments::{carry_out_again, take_back};
use crate::noting::{note_all, note_all_back};
use crate::report::{append_check, finds_nothing};
use crate::resetting::clear;
use crate::unbuilt::is_unbuilt;
use crate::{Start, StoreScope, Turn};
use class_model::{OclType, OpNo};
use contract_frames::{FrameFault, enter, leave};
use contract_texts::{append_calls, append_posts, append_pres, are_met};
use entry_states::{Call, Frame, Frames, Overlay};
use invariant_cache::{Cache, Structure};
use object_referrers::ReferrerStore;
use object_state::{Cells, Change, Layout, StateReader};
use ocl_core::{ContractNo, Expr, Stmt};
use ocl_eval::{Outcome, evaluate_in};
use ocl_program::Program;
use ocl_values::{Text, Value};
use soil_check::{Checked, Topic, TypeFault, check_command};
use soil_exec::{ExecFault, call_to_enter, environment, execute, value_to_give};
use std::alloc::{AllocError, Global};
use std::sync::ledger::Ledger;
use undo_log::{Entry, FrameMove, History};
use use_info::{append_class, append_model, append_state, append_variables};
use use_lists::Items;
use use_steps::Steps;
use use_syntax::Parsed;
use use_text::{Code, Cut, Family, Place, Refusal};

/// The most commands that can be taken back.
const MAX_HISTORY: u32 = 1_000;

/// The budget of an evaluation is spent.
const B1: Code = Code {
    family: Family::B,
    number: 1,
};

/// The most calls that may be open.
const MAX_OPEN: u32 = 64;

/// A precondition is not true.
const C1: Code = Code {
    family: Family::C,
    number: 1,
};

/// Too many operations are open.
const C4: Code = Code {
    family: Family::C,
    number: 4,
};

/// There is nothing to undo.
const U1: Code = Code {
    family: Family::U,
    number: 1,
};

/// There is nothing to redo.
const U2: Code = Code {
    family: Family::U,
    number: 2,
};

/// What a session keeps from one command to the next: the model's program, one store with the
/// multiplicities that its state breaks, the frames of the calls that are open, the changes that lead
/// from its state to those before and after, and what is known of the invariants.
#[derive(Drop)]
pub(crate) struct Machine {
    pub(crate) alloc: Global,
    program: Program,
    store: ReferrerStore,
    structure: Structure,
    frames: Frames,
    history: History,
    cache: Cache,
}

/// Keeps what an accepted command did. What could be carried out again is forgotten.
fn keep(history: &mut History, changes: Items<Change>, moved: FrameMove)
    ensures { history.new ≡ record history.old { past = take history.old.capacity (record { changes = changes; moved = moved } ∷ history.old.past); future = [] } }
{
    history.forget_forward();
    history.keep(Entry { changes, moved });
}

/// The frame of a call that is entered.
fn entered(alloc: Global, call: &Call) -> Result<Frame, AllocError>
    ensures { IfOk result (λ f. f ≡ frame_of call.now) }
{
    Ok(Frame {
        call: call.try_copy(alloc)?,
        overlay: Overlay::new(alloc),
    })
}

fn copied_names(alloc: Global, names: &[Text]) -> Result<Items<Text>, AllocError>
    ensures { IfOk result (λ all. all ≡ names.now) }
{
    let mut all = Items::new(alloc);
    'names: for name in names {
        all.push(Text::copy_of(alloc, name.as_str())?)?;
    }
    Ok(all)
}

/// Tells why statements are refused.
fn tell(
    alloc: Global,
    program: &Program,
    fault: ExecFault,
    out: &mut Vec<u8>,
) -> Result<Turn, AllocError>
    ensures { TellsFault program.now fault out.old.items result out.new.items }
{
    match fault {
        ExecFault::Memory => Err(AllocError),
        ExecFault::Refused(refusal) => refuse(refusal, out),
        ExecFault::Broken {
            refusal,
            contract,
            value,
        } => refuse_broken(alloc, program, refusal, contract, &value, out),
    }
}

/// Tells why a call is not entered.
fn tell_frame(
    alloc: Global,
    program: &Program,
    place: Place,
    fault: FrameFault,
    out: &mut Vec<u8>,
) -> Result<Turn, AllocError>
    ensures { TellsFrameFault program.now place fault out.old.items result out.new.items }
{
    match fault {
        FrameFault::Memory => Err(AllocError),
        FrameFault::Over(_) => refuse_at(B1, place, out),
        FrameFault::Broken(contract, value) => {
            let refusal = Refusal { code: C1, place };
            refuse_broken(alloc, program, refusal, contract, &value, out)
        }
        FrameFault::TooMany | FrameFault::Nothing => refuse_at(C4, place, out),
    }
}

/// Why the top call is not left: for want of memory alone, since one is open.
fn tell_none_left(fault: FrameFault) -> Result<Turn, AllocError>
    ensures { TellsNoneLeft fault result }
{
    match fault {
        FrameFault::Memory => Err(AllocError),
        _ => Ok(Turn::Quiet),
    }
}

/// How a call is left.
fn turn_of_posts(outcomes: &[(ContractNo, Outcome)]) -> Turn
    ensures { result ≡ turn_of_posts outcomes.now }
{
    if are_met(outcomes) {
        Turn::Quiet
    } else {
        Turn::CheckFailed
    }
}

/// How a check ends.
fn turn_of_check(nothing_found: bool) -> Turn
    ensures { result ≡ turn_of_check nothing_found }
{
    if nothing_found {
        Turn::Quiet
    } else {
        Turn::CheckFailed
    }
}

impl Machine {
    /// The machine before the first command.
    pub(crate) fn new(alloc: Global, program: Program) -> Result<Machine, AllocError>
        ensures kept { IfOk result IsKept }
        ensures machine { IfOk result (λ m. machine_of m ≡ start program) }
    {
        let layout = Layout::of(alloc, program.model())?;
        let cache = Cache::new(&program);
        Ok(Machine {
            alloc,
            program,
            store: ReferrerStore::new(alloc, layout),
            structure: Structure::new(alloc),
            frames: Frames::new(alloc),
            history: History::new(alloc, MAX_HISTORY)?,
            cache,
        })
    }

    /// How many objects are live, and how many links there are.
    pub(crate) fn counts(&self) -> (u32, u32)
        ensures { result ≡ counts (machine_of self.now) }
    {
        self.store.state_is_valid();
        (
            self.store.object_count() as u32,
            self.store.link_count() as u32,
        )
    }

    /// What a command is checked among: the names of the present state.
    pub(crate) fn scope(&self) -> Result<StoreScope<'_>, AllocError>
        requires { IsKept self.now }
        ensures { IfOk result (IsScopeAt (machine_of self.now)) }
    {
        Ok(StoreScope {
            store: &self.store,
            bindings: top_bindings(self.alloc, &self.program, &self.frames)?,
        })
    }

    /// Checks a command among the names of the present state.
    pub(crate) fn check(&self, parsed: &Parsed) -> Result<Checked, TypeFault>
        requires text { All (IsWithin (length parsed.now.text)) parsed.now.tokens }
        requires kept { IsKept self.now }
        ensures of_model { IfOk result (IsCommandOf self.now.program.model) }
        ensures names { IfOk result TakesNames }
        ensures checked { Tells (checked (machine_of self.now) parsed.now.text parsed.now.tokens (root_tree parsed.now.tree)) result }
    {
        self.store.state_is_valid();
        self.program.model().has_numbers_in_range();
        let bindings = top_bindings(self.alloc, &self.program, &self.frames)?;
        let scope = StoreScope {
            store: &self.store,
            bindings,
        };
        check_command(self.alloc, &self.program, &scope, parsed)
    }

    /// What an expression comes to in the present state.
    fn evaluated<L: Ledger>(
        &self,
        expr: &Expr,
        shell: &[Text],
        steps: &mut Steps<L>,
    ) -> Result<Outcome, AllocError>
        requires tree { IsSound expr.now }
        requires kept { IsKept self.now }
        ensures value { IfOk result (λ outcome. outcome ≡ told (eval (scene (machine_of self.now)) (environment (machine_of self.now) shell.now) expr.now).0) }
        ensures units { OnOk result (steps.new + (eval (scene (machine_of self.now)) (environment (machine_of self.now) shell.now) expr.now).1.fuel ≡ steps.old + max_units) }
    {
        self.program.is_checked();
        let bound = bound_values(self.alloc, &self.frames)?;
        let mut env = environment(self.alloc, &self.store, shell, bound)?;
        let mut reads = Cells::new(self.alloc);
        evaluate_in::<L, ReferrerStore, ReferrerStore>(
            self.alloc,
            self.program.as_parts(),
            expr,
            &mut env,
            &self.store,
            &self.store,
            &mut reads,
            steps,
        )
    }

    /// `? e`
    fn query<L: Ledger>(
        &self,
        place: Place,
        expr: &Expr,
        of_type: &OclType,
        shell: &[Text],
        out: &mut Vec<u8>,
        steps: &mut Steps<L>,
    ) -> Result<Turn, AllocError>
        requires tree { IsSound expr.now }
        requires kept { IsKept self.now }
        ensures { Answers (query (machine_of self.now) place expr.now of_type.now shell.now) out.old.items steps.old result self.now out.new.items steps.new }
    {
        match self.evaluated(expr, shell, steps)? {
            Outcome::Exhausted => refuse_at(B1, place, out),
            Outcome::Done(value) => {
                let model = self.program.model();
                append_value_line(self.alloc, model, &self.store, &value, of_type, out)?;
                Ok(Turn::Quiet)
            }
        }
    }

    /// `!` and statements.
    fn carry_out<L: Ledger>(
        &mut self,
        line: u32,
        body: &[Stmt],
        shell: Items<Text>,
        out: &mut Vec<u8>,
        steps: &mut Steps<L>,
    ) -> Result<Turn, AllocError>
        requires body { IsBodyOf self.old.program.model body.now }
        requires names { AreNames shell }
        requires kept { IsKept self.old }
        ensures { Answers (execute (machine_of self.old) line body.now shell) out.old.items steps.old result self.new out.new.items steps.new }
    {
        self.store.state_is_valid();
        let bound = bound_values(self.alloc, &self.frames)?;
        let done = execute(
            self.alloc,
            &self.program,
            body,
            shell,
            bound,
            &mut self.store,
            &mut self.frames,
            steps,
        );
        match done {
            Err(fault) => tell(self.alloc, &self.program, fault_in(line, fault), out),
            Ok(changes) => {
                let model = self.program.model();
                note_all(model, &mut self.structure, changes.as_slice())?;
                keep(&mut self.history, changes, FrameMove::Stay);
                Ok(Turn::Quiet)
            }
        }
    }

    /// Enters a call, and writes its preconditions.
    fn open<L: Ledger>(
        &mut self,
        word: Place,
        call: Call,
        out: &mut Vec<u8>,
        steps: &mut Steps<L>,
    ) -> Result<Turn, AllocError>
        requires call { IsCall self.old.program call }
        requires few { length self.old.frames < max_open }
        requires kept { IsKept self.old }
        ensures { Answers (entered_unless (machine_of self.old) word (pre_units self.old.program (diagram (machine_of self.old)) call) call (all_true (pres self.old.program (diagram (machine_of self.old)) call)))
            out.old.items steps.old result self.new out.new.items steps.new }
    {
        self.store.state_is_valid();
        let frame = entered(self.alloc, &call)?;
        let entering = enter(
            self.alloc,
            &self.program,
            &self.store,
            &mut self.frames,
            call,
            MAX_OPEN,
            steps,
        );
        match entering {
            Err(fault) => tell_frame(self.alloc, &self.program, word, fault, out),
            Ok(numbers) => {
                append_pres(&self.program, numbers.as_slice(), out)?;
                let changes = Items::new(self.alloc);
                keep(&mut self.history, changes, FrameMove::Entered(frame));
                Ok(Turn::Quiet)
            }
        }
    }

    /// `openter`
    fn enter<L: Ledger>(
        &mut self,
        word: Place,
        receiver: &Expr,
        op: OpNo,
        args: &[Expr],
        shell: Items<Text>,
        out: &mut Vec<u8>,
        steps: &mut Steps<L>,
    ) -> Result<Turn, AllocError>
        requires op { op < length self.old.program.model.ops }
        requires receiver { IsSound receiver.now }
        requires args { All IsSound args.now }
        requires names { AreNames shell }
        requires kept { IsKept self.old }
        ensures { Answers (enter (machine_of self.old) word receiver.now op args.now shell) out.old.items steps.old result self.new out.new.items steps.new }
    {
        if self.frames.depth() == MAX_OPEN {
            return refuse_at(C4, word, out);
        }
        let bound = bound_values(self.alloc, &self.frames)?;
        let found = call_to_enter(
            self.alloc,
            &self.program,
            word,
            receiver,
            op,
            args,
            shell,
            bound,
            &mut self.store,
            steps,
        );
        match found {
            Err(fault) => tell(self.alloc, &self.program, fault, out),
            Ok(call) => self.open(word, call, out, steps),
        }
    }

    /// Leaves the top call, and writes its postconditions.
    fn close<L: Ledger>(
        &mut self,
        given: &Value,
        out: &mut Vec<u8>,
        steps: &mut Steps<L>,
    ) -> Result<Turn, AllocError>
        requires given { IsWellMade given.now }
        requires kept { IsKept self.old }
        ensures { Answers (left_by (machine_of self.old) 0 given.now (open_calls (machine_of self.old))) out.old.items steps.old result self.new out.new.items steps.new }
    {
        if self.has_no_call() {
            return Ok(Turn::Quiet);
        }
        self.store.state_is_valid();
        let left = leave(
            self.alloc,
            &self.program,
            &self.store,
            &mut self.frames,
            given,
            steps,
        );
        match left {
            Err(fault) => tell_none_left(fault),
            Ok((frame, outcomes)) => {
                append_posts(&self.program, outcomes.as_slice(), out)?;
                let changes = Items::new(self.alloc);
                keep(&mut self.history, changes, FrameMove::Left(frame));
                Ok(turn_of_posts(outcomes.as_slice()))
            }
        }
    }

    /// `opexit`
    fn exit<L: Ledger>(
        &mut self,
        word: Place,
        e: Option<&Expr>,
        shell: Items<Text>,
        out: &mut Vec<u8>,
        steps: &mut Steps<L>,
    ) -> Result<Turn, AllocError>
        requires tree { ForSome (option_copied e) IsSound }
        requires names { AreNames shell }
        requires kept { IsKept self.old }
        ensures { Answers (exit (machine_of self.old) word (option_copied e.entry) shell) out.old.items steps.old result self.new out.new.items steps.new }
    {
        let bound = bound_values(self.alloc, &self.frames)?;
        let given = value_to_give(
            self.alloc,
            &self.program,
            word,
            e,
            shell,
            bound,
            &mut self.store,
            steps,
        );
        match given {
            Err(fault) => tell(self.alloc, &self.program, fault, out),
            Ok(given) => self.close(&given, out, steps),
        }
    }

    /// Whether no call is open.
    pub(crate) fn has_no_call(&self) -> bool
        ensures { result ≡ nat_eq (length (open_calls (machine_of self.now))) 0 }
    {
        self.frames.depth() == 0
    }

    /// Appends what `info` tells of a topic.
    fn append_info(&self, topic: Topic, out: &mut Vec<u8>) -> Result<(), AllocError>
        requires topic { IsTopicOf self.now.program.model topic }
        requires kept { IsKept self.now }
        ensures { OnOk result (out.new.items ≡ out.old.items ++ info_text self.now.program self.now.store.state (open_calls (machine_of self.now)) topic) }
    {
        let model = self.program.model();
        match topic {
            Topic::Class(class) => append_class(self.alloc, model, &self.store, class, out),
            Topic::Model => append_model(&self.program, out),
            Topic::State => append_state(self.alloc, model, &self.store, out),
            Topic::Vars => append_variables(self.alloc, model, &self.store, out),
            Topic::Opstack => append_calls(self.alloc, model, &self.store, &self.frames, out),
            Topic::Script | Topic::Use => Ok(()),
        }
    }

    /// `check`
    fn judge<L: Ledger>(
        &mut self,
        detail: bool,
        out: &mut Vec<u8>,
        steps: &mut Steps<L>,
    ) -> Result<Turn, AllocError>
        requires { IsKept self.old }
        ensures { Answers (check_step (machine_of self.old) detail) out.old.items steps.old result self.new out.new.items steps.new }
    {
        let broken = self.structure.violations(self.alloc)?;
        let report = self
            .cache
            .refresh::<L, ReferrerStore>(self.alloc, &self.program, &self.store, steps)?;
        append_check(
            self.alloc,
            &self.program,
            &self.store,
            detail,
            broken.as_slice(),
            &report,
            out,
        )?;
        Ok(turn_of_check(finds_nothing(broken.as_slice(), &report)))
    }

    /// `info`
    fn info(&self, topic: Topic, out: &mut Vec<u8>) -> Result<Turn, AllocError>
        requires topic { IsTopicOf self.now.program.model topic }
        requires kept { IsKept self.now }
        ensures { Answers (accepted (machine_of self.now) (info_text self.now.program self.now.store.state (open_calls (machine_of self.now)) topic) 0) out.old.items 0 result self.now out.new.items 0 }
    {
        self.append_info(topic, out)?;
        Ok(Turn::Quiet)
    }

    /// `open F`
    pub(crate) fn open_file(&self, cut: &Cut, out: &mut Vec<u8>) -> Result<Turn, AllocError>
        requires opens { is_open cut.now ≡ true }
        requires command { IsCommand max_lines cut.now }
        requires kept { IsKept self.now }
        ensures { Answers (opened (machine_of self.now) (first_place cut.now.first_line cut.now.text) (judged (file_name cut.now.text))) out.old.items 0 result
            self.now out.new.items 0 }
    {
        let text = cut.text.as_slice();
        let place = first_place(cut.first_line, text);
        match judged(file_name(text)) {
            Err(code) => refuse_at(code, place, out),
            Ok(name) => {
                let name = Text::copy_of(self.alloc, name)?;
                Ok(Turn::Fetch { name, place })
            }
        }
    }

    /// `undo`
    fn undo(&mut self, place: Place, out: &mut Vec<u8>) -> Result<Turn, AllocError>
        requires { IsKept self.old }
        ensures { Answers (undone (machine_of self.old) place (machine_of self.old).timeline.past) out.old.items 0 result self.new out.new.items 0 }
    {
        self.program.model().has_numbers_in_range();
        self.store.state_is_valid();
        match self.history.step_back() {
            None => refuse_at(U1, place, out),
            Some(entry) => {
                let Entry { changes, moved } = entry;
                let again = take_back(self.alloc, &mut self.store, &mut self.frames, changes)?;
                let model = self.program.model();
                note_all_back(model, &mut self.structure, again.as_slice())?;
                let moved = moved.take_back(self.alloc, &mut self.frames)?;
                self.history.put_forward(Entry {
                    changes: again,
                    moved,
                });
                Ok(Turn::Quiet)
            }
        }
    }

    /// `redo`
    fn redo(&mut self, place: Place, out: &mut Vec<u8>) -> Result<Turn, AllocError>
        requires { IsKept self.old }
        ensures { Answers (redone (machine_of self.old) place (machine_of self.old).timeline.future) out.old.items 0 result self.new out.new.items 0 }
    {
        self.program.model().has_numbers_in_range();
        self.store.state_is_valid();
        match self.history.step_forward() {
            None => refuse_at(U2, place, out),
            Some(entry) => {
                let Entry { changes, moved } = entry;
                let again = carry_out_again(
                    self.alloc,
                    &mut self.store,
                    &mut self.frames,
                    changes,
                )?;
                let model = self.program.model();
                note_all(model, &mut self.structure, again.as_slice())?;
                let moved = moved.carry_out(self.alloc, &mut self.frames)?;
                self.history.put_back(Entry {
                    changes: again,
                    moved,
                });
                Ok(Turn::Quiet)
            }
        }
    }

    /// `reset`
    fn reset(&mut self) -> Result<Turn, AllocError>
        requires { IsKept self.old }
        ensures { (bytes : List ℕ) → Answers (silent (reset (machine_of self.old))) bytes 0 result self.new bytes 0 }
    {
        self.program.model().has_numbers_in_range();
        self.store.state_is_valid();
        let gone = clear(self.alloc, &mut self.store)?;
        let model = self.program.model();
        note_all(model, &mut self.structure, gone.as_slice())?;
        self.frames = Frames::new(self.alloc);
        self.history.clear();
        Ok(Turn::Quiet)
    }

    /// `!` and statements, among names that are kept.
    fn carry_out_among<L: Ledger>(
        &mut self,
        line: u32,
        body: &[Stmt],
        shell: &[Text],
        out: &mut Vec<u8>,
        steps: &mut Steps<L>,
    ) -> Result<Turn, AllocError>
        requires body { IsBodyOf self.old.program.model body.now }
        requires names { AreNames shell.now }
        requires kept { IsKept self.old }
        ensures { Answers (execute (machine_of self.old) line body.now shell.now) out.old.items steps.old result self.new out.new.items steps.new }
    {
        let names = copied_names(self.alloc, shell)?;
        self.carry_out(line, body, names, out, steps)
    }

    /// `openter`, among names that are kept.
    fn enter_among<L: Ledger>(
        &mut self,
        word: Place,
        receiver: &Expr,
        op: OpNo,
        args: &[Expr],
        shell: &[Text],
        out: &mut Vec<u8>,
        steps: &mut Steps<L>,
    ) -> Result<Turn, AllocError>
        requires op { op < length self.old.program.model.ops }
        requires receiver { IsSound receiver.now }
        requires args { All IsSound args.now }
        requires names { AreNames shell.now }
        requires kept { IsKept self.old }
        ensures { Answers (enter (machine_of self.old) word receiver.now op args.now shell.now) out.old.items steps.old result self.new out.new.items steps.new }
    {
        let names = copied_names(self.alloc, shell)?;
        self.enter(word, receiver, op, args, names, out, steps)
    }

    /// `opexit`, among names that are kept.
    fn exit_among<L: Ledger>(
        &mut self,
        word: Place,
        e: Option<&Expr>,
        shell: &[Text],
        out: &mut Vec<u8>,
        steps: &mut Steps<L>,
    ) -> Result<Turn, AllocError>
        requires tree { ForSome (option_copied e) IsSound }
        requires names { AreNames shell.now }
        requires kept { IsKept self.old }
        ensures { Answers (exit (machine_of self.old) word (option_copied e.entry) shell.now) out.old.items steps.old result self.new out.new.items steps.new }
    {
        let names = copied_names(self.alloc, shell)?;
        self.exit(word, e, names, out, steps)
    }

    /// Carries a command out whose form is built, and which begins in this line.
    fn answer_built<L: Ledger>(
        &mut self,
        line: u32,
        at: Start,
        word: Place,
        command: &Checked,
        out: &mut Vec<u8>,
        steps: &mut Steps<L>,
    ) -> Result<Turn, AllocError>
        requires fit { MayRun self.old.program.model command.now }
        requires kept { IsKept self.old }
        ensures { Answers (carried_out (machine_of self.old) line at word command.now) out.old.items steps.old result self.new out.new.items steps.new }
    {
        match command {
            Checked::Query {
                expr,
                of_type,
                shell,
            } => self.query(at.second, expr, of_type, shell.as_slice(), out, steps),
            Checked::Statements { body, shell } => {
                self.carry_out_among(line, body.as_slice(), shell.as_slice(), out, steps)
            }
            Checked::Enter {
                receiver,
                op,
                args,
                shell,
            } => self.enter_among(
                word,
                receiver,
                *op,
                args.as_slice(),
                shell.as_slice(),
                out,
                steps,
            ),
            Checked::Exit { value, shell } => {
                self.exit_among(word, value.as_ref(), shell.as_slice(), out, steps)
            }
            Checked::Check { detail } => self.judge(*detail, out, steps),
            Checked::Info(topic) => self.info(*topic, out),
            Checked::Undo => self.undo(at.first, out),
            Checked::Redo => self.redo(at.first, out),
            Checked::Reset => self.reset(),
            Checked::Quit => Ok(Turn::Quit),
            _ => Ok(Turn::Quiet),
        }
    }

    /// Carries a checked command out that begins in this line, and answers it.
    pub(crate) fn answer<L: Ledger>(
        &mut self,
        line: u32,
        at: Start,
        word: Place,
        command: &Checked,
        out: &mut Vec<u8>,
        steps: &mut Steps<L>,
    ) -> Result<Turn, AllocError>
        requires fit { MayRun self.old.program.model command.now }
        requires kept { IsKept self.old }
        ensures { Answers (answered (machine_of self.old) line at word (Ok command.now)) out.old.items steps.old result self.new out.new.items steps.new }
    {
        if is_unbuilt(command) {
            return refuse_at(Code::S0, at.first, out);
        }
        self.answer_built(line, at, word, command, out, steps)
    }
}
