ghost use Rattle.std.specs.Prelude.{◌≡◌};
ghost use Rattle.use_text.specs.Keeping.{marks_of};
ghost use Rattle.use_text.specs.KeepingSteps.{marks_on, is_idle_mark, is_only_mark};

use crate::line::{dark_part, is_all_blank};

/// What tells a line from others, of its bytes so far. It has one size, however long the line is.
#[derive(Clone, Copy, Debug, PartialEq, Eq)]
pub struct LineMarks {
    /// Whether it has a byte.
    pub begun: bool,
    /// Its first byte that is not white.
    pub first: Option<u8>,
    /// The byte right behind that.
    pub second: Option<u8>,
    /// Whether all behind its first byte that is not white is white.
    pub alone: bool,
}

impl LineMarks {
    /// Those of a line of these bytes.
    pub fn of(line: &[u8]) -> LineMarks
        ensures { result ≡ marks_of line.now }
    {
        let dark = dark_part(line);
        LineMarks {
            begun: !line.is_empty(),
            first: dark.first().copied(),
            second: dark.get(1).copied(),
            alone: dark.is_empty() || is_all_blank(&dark[1..]),
        }
    }

    /// Those of the line with more bytes.
    pub fn with(self, more: &[u8]) -> LineMarks
        ensures { result ≡ marks_on self more.now }
    {
        match self.first {
            None => {
                let marks = LineMarks::of(more);
                LineMarks {
                    begun: self.begun || marks.begun,
                    ..marks
                }
            }
            Some(_) => LineMarks {
                begun: self.begun || !more.is_empty(),
                second: self.second.or(more.first().copied()),
                alone: self.alone && is_all_blank(more),
                ..self
            },
        }
    }

    /// Whether the line gives no command: it is white, or a comment alone.
    pub fn is_idle(self) -> bool
        ensures { result ≡ is_idle_mark self }
    {
        match self.first {
            None => true,
            Some(b'-') => self.second == Some(b'-'),
            Some(b'/') => self.second == Some(b'/'),
            Some(_) => false,
        }
    }

    /// Whether the line is this one byte between white.
    pub fn is_only(self, mark: u8) -> bool
        ensures { result ≡ is_only_mark mark self }
    {
        self.first == Some(mark) && self.alone
    }
}
