use std::alloc::AllocError;

/// Why rows do not hold.
#[derive(Debug, Drop)]
pub enum RowFault {
    /// An allocation was refused.
    Memory,
    /// A grammar, a program or an expression is not there.
    Unmade,
    /// A query that is evaluated otherwise, and what is found.
    Other(String),
}

impl From<AllocError> for RowFault {
    fn from(_: AllocError) -> RowFault {
        RowFault::Memory
    }
}
