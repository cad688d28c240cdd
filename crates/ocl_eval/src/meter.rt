use object_state::Cells;

/// The units that are left to an evaluation, and the cells that it has read.
#[derive(Debug, Drop)]
pub(crate) struct Meter {
    pub(crate) fuel: u32,
    pub(crate) reads: Cells,
}
