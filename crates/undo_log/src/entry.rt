use crate::FrameMove;
use object_state::Change;
use use_lists::Items;

/// What an accepted command did.
#[derive(Debug, Drop)]
pub struct Entry {
    /// In the order in which they were made.
    pub changes: Items<Change>,
    pub moved: FrameMove,
}
