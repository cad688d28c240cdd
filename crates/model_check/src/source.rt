use ocl_values::Text;
use soil_scope::Setting;

/// A model whose text is checked, and the names of its invariants and contracts, in the order of the
/// text.
#[derive(Drop)]
pub(crate) struct Source<'a> {
    pub(crate) setting: Setting<'a>,
    pub(crate) names: &'a [Text],
}
