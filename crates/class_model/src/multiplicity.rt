ghost use Rattle.std.specs.Prelude.{◌≡◌, pos};
ghost use Rattle.class_model.specs.Multiplicities.{allows, greatest_is_one, is_within};

use ocl_values::Text;
use use_lists::Items;

/// A part of a multiplicity: the numbers from `low` to `high`, or from `low` on.
#[derive(Clone, Copy, Debug, PartialEq, Eq)]
pub struct Span {
    pub low: i128,
    pub high: Option<i128>,
}

/// How many objects may stand at an end of an association (OCL 2.3.1, A.1.1.5).
#[derive(Debug, Drop)]
pub struct Multiplicity {
    pub spans: Items<Span>,
    /// The parts as they are declared, joined by commas.
    pub spec: Text,
}

impl Span {
    fn has(self, n: i128) -> bool
        ensures { result ≡ is_within n self }
    {
        self.low <= n && self.high.is_none_or(|high| n <= high)
    }
}

impl Multiplicity {
    /// Whether so many objects are allowed.
    pub fn allows(&self, n: u32) -> bool
        ensures { result ≡ allows self.now (pos n) }
    {
        self.spans.as_slice().iter().any(|span| span.has(n as i128))
    }

    /// Whether one is the largest number that is allowed.
    pub fn greatest_is_one(&self) -> bool
        ensures { result ≡ greatest_is_one self.now }
    {
        self.spans
            .as_slice()
            .iter()
            .all(|span| span.high == Some(1))
    }

    /// The parts as they are declared, joined by commas.
    pub fn spec(&self) -> &str
        ensures { result.now ≡ self.now.spec }
    {
        self.spec.as_str()
    }
}
