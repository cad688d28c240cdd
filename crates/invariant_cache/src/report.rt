ghost use Rattle.std.specs.Prelude.{◌≡◌};
ghost use Rattle.invariant_cache.specs.Verdicts.{instance_text, is_ok, not_ok, verdict_text};

use ocl_values::ObjNo;
use use_lists::Items;

/// Why an invariant does not hold for an instance.
#[derive(Clone, Copy, Debug, PartialEq, Eq)]
pub enum Instance {
    /// It is false.
    Fails,
    /// It is null or invalid.
    Undefined,
    /// The budget of the evaluation is spent.
    Exhausted,
}

/// What an invariant comes to over all instances of its class.
#[derive(Clone, Copy, Debug, PartialEq, Eq)]
pub enum Verdict {
    Ok,
    /// It fails for an instance.
    Failed,
    /// It is exhausted for an instance, and fails for none.
    Over,
    /// It is undefined for an instance, and fails or is exhausted for none.
    NotApplicable,
}

/// The verdict of an invariant, with the instances for which it does not hold, by number.
#[derive(Debug, Drop)]
pub struct Judged {
    pub verdict: Verdict,
    pub bad: Items<(ObjNo, Instance)>,
}

/// The verdicts of all invariants in the order of the text, and how many of them were evaluated for it.
#[derive(Debug, Drop)]
pub struct Report {
    pub lines: Items<Judged>,
    pub evaluated: usize,
}

impl Instance {
    /// The word for it.
    pub fn text(self) -> &'static str
        ensures { result.now ≡ instance_text self }
    {
        match self {
            Instance::Fails => "Fails",
            Instance::Undefined => "Undefined",
            Instance::Exhausted => "Exhausted",
        }
    }
}

impl Verdict {
    pub fn is_ok(self) -> bool
        ensures { result ≡ is_ok self }
    {
        match self {
            Verdict::Ok => true,
            Verdict::Failed | Verdict::Over | Verdict::NotApplicable => false,
        }
    }

    /// The word for it.
    pub fn text(self) -> &'static str
        ensures { result.now ≡ verdict_text self }
    {
        match self {
            Verdict::Ok => "OK",
            Verdict::Failed => "FAILED",
            Verdict::Over => "OVER",
            Verdict::NotApplicable => "N/A",
        }
    }
}

impl Report {
    /// How many verdicts are not OK.
    pub fn not_ok(&self) -> usize
        ensures { result ≡ not_ok self.now }
    {
        self.lines
            .as_slice()
            .iter()
            .filter(|line| !line.verdict.is_ok())
            .count()
    }
}
