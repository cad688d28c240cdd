ghost use Rattle.std.specs.Prelude.{◌≡◌, ◌+◌, ◌≤◌, ℕ, List, Some};
ghost use Rattle.ocl_values.specs.declared.value.Value.{Value};
ghost use Rattle.object_state.specs.declared.cell.Cell.{Cell};
ghost use Rattle.object_state.specs.declared.cell.Look.{Look};
ghost use Rattle.ocl_core.specs.declared.expression.Expr.{Expr};
ghost use Rattle.ocl_core.specs.declared.operators.When.{When};
ghost use Rattle.ocl_core.specs.declared.program.ProgramParts.{ProgramParts};
ghost use Rattle.ocl_eval.specs.declared.meter.Meter.{Meter};
ghost use Rattle.ocl_eval.specs.Agreeing.{AgreeOn, with_more};
ghost use Rattle.ocl_eval.specs.Evaluation.{eval, eval_from, ev, max_units};
ghost use Rattle.ocl_eval.specs.Evaluations.{Outcome};
ghost use Rattle.ocl_eval.specs.Scenes.{scene_of};

/// A law: two present states that agree on each cell that an evaluation reads give the same outcome,
/// with the same cells read and the same units spent.
pub fn outcomes_depend_on_what_is_read()
    ensures { (p : ProgramParts) (now other pre : Cell → Look) (env : List Value) (e : Expr) (reads : List Cell)
        → AgreeOn (eval_from (scene_of p now pre) env e reads).1.reads now other
        → eval_from (scene_of p other pre) env e reads ≡ eval_from (scene_of p now pre) env e reads }
{}

/// A law: what is done with some levels and units is done with the same value and cells with more of
/// them, and what was spent is the same.
pub fn what_is_done_stays_done()
    ensures { (p : ProgramParts) (now pre : Cell → Look) (levels more k : ℕ) (at : When) (env : List Value) (e : Expr) (m left : Meter) (v : Value)
        → ◌≡◌ {A = Outcome Value} (ev (scene_of p now pre) levels at env e m) (Some v, left)
        → ◌≡◌ {A = Outcome Value} (ev (scene_of p now pre) (more + levels) at env e (with_more k m)) (Some v, with_more k left) }
{}

/// A law: an evaluation leaves no more units than it was given.
pub fn no_units_are_gained()
    ensures { (p : ProgramParts) (now pre : Cell → Look) (env : List Value) (e : Expr) → (eval (scene_of p now pre) env e).1.fuel ≤ max_units }
{}
