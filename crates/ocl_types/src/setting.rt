use class_model::ClassModel;
use std::alloc::Global;

/// What is the same for all parts of a node.
#[derive(Drop)]
pub(crate) struct Setting<'a> {
    pub(crate) alloc: Global,
    pub(crate) model: &'a ClassModel,
    pub(crate) is_post: bool,
    /// How many nodes may nest in a part.
    pub(crate) nesting: u32,
}
