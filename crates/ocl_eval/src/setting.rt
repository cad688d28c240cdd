use ocl_core::{ProgramParts, When};
use std::alloc::Global;

/// What is the same for all parts of a node.
#[derive(Drop)]
pub(crate) struct Setting<'a, V> {
    pub(crate) alloc: Global,
    pub(crate) program: &'a ProgramParts,
    pub(crate) states: &'a V,
    /// Which state takes the place of the present one.
    pub(crate) at: When,
    /// How many levels are left.
    pub(crate) levels: u32,
}
