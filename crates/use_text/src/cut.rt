use crate::Bytes;

/// How a command of the stream ended.
#[derive(Clone, Copy, Debug, PartialEq, Eq)]
pub enum Fate {
    /// Its text is whole.
    Whole,
    /// It has more than 65,536 bytes, and its text is left out.
    TooLong,
    /// The input's end cut it off.
    Unfinished,
}

/// A command of the stream: its text, and the number of its first line, from 1.
#[derive(Debug, Drop, PartialEq, Eq)]
pub struct Cut {
    pub text: Bytes,
    pub first_line: u32,
    pub fate: Fate,
}
