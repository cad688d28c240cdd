use ocl_values::Value;

/// What an evaluation comes to.
#[derive(Debug, Drop, PartialEq, Eq)]
pub enum Outcome {
    Done(Value),
    /// The budget is spent: 1,000,000 units, or 512 levels.
    Exhausted,
}
