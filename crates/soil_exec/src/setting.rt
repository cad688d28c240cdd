use ocl_program::Program;
use use_text::Place;

/// What is the same for all statements of a block.
#[derive(Drop)]
pub(crate) struct Setting<'a, V> {
    pub(crate) program: &'a Program,
    /// What evaluates expressions.
    pub(crate) evaluator: &'a V,
    /// How many levels may still be entered.
    pub(crate) levels: u32,
    /// Where all is told that is told of the body of a called operation.
    pub(crate) told: Option<Place>,
}
