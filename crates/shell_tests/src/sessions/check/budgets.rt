use crate::sessions::Line;

/// A model whose invariant may spend its budget.
pub const RANGES: &str = "model Ranges
class Range
attributes
  last : Integer
end
constraints
context Range inv short: Sequence{1..last}->size() < 10
context r : Range inv: r.last <> 0
";

/// A verdict is FAILED before OVER, and OVER before N/A; objects are listed by their numbers.
pub static BUDGETS: &[Line] = &[
    (
        "check -d",
        "structure: OK\ninv Range::short: OK\ninv Range::inv2: OK\n2 invariants, 2 evaluated, 0 not OK\n",
    ),
    ("!create one, none, many, far : Range", ""),
    ("!one.last := 1; many.last := 9; far.last := 1000000", ""),
    (
        "check",
        "structure: OK\ninv Range::short: OVER\ninv Range::inv2: OK\n2 invariants, 2 evaluated, 1 not OK\n",
    ),
    (
        "check -d",
        "structure: OK\ninv Range::short: OVER\n  none: Undefined\n  far: Exhausted\ninv Range::inv2: OK\n2 invariants, 2 evaluated, 1 not OK\n",
    ),
    ("!many.last := 10", ""),
    (
        "check -d",
        "structure: OK\ninv Range::short: FAILED\n  none: Undefined\n  many: Fails\n  far: Exhausted\ninv Range::inv2: OK\n2 invariants, 2 evaluated, 1 not OK\n",
    ),
    ("!destroy far", ""),
    (
        "check -d",
        "structure: OK\ninv Range::short: FAILED\n  none: Undefined\n  many: Fails\ninv Range::inv2: OK\n2 invariants, 2 evaluated, 1 not OK\n",
    ),
    ("!many.last := 9", ""),
    (
        "check -d",
        "structure: OK\ninv Range::short: N/A\n  none: Undefined\ninv Range::inv2: OK\n2 invariants, 2 evaluated, 1 not OK\n",
    ),
    ("!none.last := 9", ""),
    (
        "check -d",
        "structure: OK\ninv Range::short: OK\ninv Range::inv2: OK\n2 invariants, 2 evaluated, 0 not OK\n",
    ),
    ("!one.last := 0", ""),
    (
        "check -d",
        "structure: OK\ninv Range::short: OK\ninv Range::inv2: FAILED\n  one: Fails\n2 invariants, 2 evaluated, 1 not OK\n",
    ),
];
