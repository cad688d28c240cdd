use crate::ShellNames;
use class_model::ClassModel;
use std::alloc::Global;
use use_decls::Lexed;

/// What is the same for all statements of a text.
#[derive(Drop)]
pub struct Setting<'a> {
    pub alloc: Global,
    pub model: &'a ClassModel,
    pub lexed: &'a Lexed<'a>,
    /// The names that a command takes from the shell; a body of a model takes none.
    pub shell: &'a ShellNames,
}
