use soil_scope::Setting;

/// What is the same for all blocks in a statement.
#[derive(Drop)]
pub(crate) struct Level<'a> {
    pub(crate) setting: &'a Setting<'a>,
    /// How many blocks may nest in it.
    pub(crate) nesting: u32,
}
