/// An open block: the number of its first line, and where the text of its lines that have ended ends
/// in the bytes that are held; nowhere, where that text is too long.
#[derive(Clone, Copy, Debug, PartialEq, Eq)]
pub struct OpenBlock {
    pub first_line: u32,
    pub end: Option<usize>,
}
