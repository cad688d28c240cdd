ghost use Rattle.std.specs.Prelude.{◌≡◌, ◌+◌, ◌<◌, IfOk, OnOk, length, true};
ghost use Rattle.invariant_cache.specs.Verdicts.{report, work_of_all};

use crate::Report;
use crate::judging::judge;
use object_state::World;
use ocl_program::Program;
use std::alloc::{AllocError, Global};
use std::marker::Model;
use std::sync::ledger::Ledger;
use use_lists::Items;
use use_steps::Steps;

/// What is kept of the invariants of a program from one check to the next. Contracts see how many
/// invariants there are.
#[derive(Drop)]
pub struct Cache {
    invariants: usize,
}

impl Model for Cache {
    ghost use Rattle.std.specs.Prelude.{ℕ};

    ghost Value = { ℕ };

    ghost view = { λ c. c.invariants };
}

impl Cache {
    /// A cache before the first check.
    pub fn new(program: &Program) -> Cache
        ensures { result ≡ length program.now.invariants }
    {
        Cache {
            invariants: program.invariants().len(),
        }
    }

    /// Whether an invariant must be evaluated before its verdict is known. No verdict is kept yet.
    pub fn is_stale(&self, invariant: u32) -> bool
        requires { invariant < self.now }
        ensures { result ≡ true }
    {
        (invariant as usize) < self.invariants
    }

    /// Evaluates the invariants that are stale, and gives the verdicts of all. The state is seen by looks
    /// alone, of which each is counted, as is each unit that an evaluation spends.
    pub fn refresh<L: Ledger, W: World<L>>(
        &mut self,
        alloc: Global,
        program: &Program,
        world: &W,
        steps: &mut Steps<L>,
    ) -> Result<Report, AllocError>
        requires { length program.now.invariants ≡ self.old }
        ensures report { IfOk result (λ r. r ≡ report program.now (W.picture world.now)) }
        ensures units { OnOk result (steps.new ≡ steps.old + work_of_all program.now (W.picture world.now)) }
        ensures count { self.new ≡ self.old }
    {
        program.is_checked();
        let mut lines = Items::new(alloc);
        'judged: for invariant in program.invariants() {
            let judged = judge(alloc, program.as_parts(), invariant, world, steps)?;
            lines.push(judged)?;
        }
        let evaluated = lines.len();
        Ok(Report { lines, evaluated })
    }
}
