use crate::Values;

/// The values of an iterator's body so far, and whether the last of them ends the walk.
#[derive(Debug, Drop)]
pub(crate) struct Visited {
    pub(crate) values: Values,
    pub(crate) ended: bool,
}
