ghost use Rattle.std.specs.Prelude.{◌≡◌, [], ◌++◌, ◌+◌, ◌<◌, ◌≤◌, IfSome, IfNone, OnOk, OnErr, length, option_to_list};
ghost use Rattle.use_text.specs.Cuts.{StaysEnded, IsCommand};
ghost use Rattle.use_text.specs.Limits.{max_command, max_lines};
ghost use Rattle.use_text.specs.Keeping.{StandsFor, IsFed, IsFinished};
ghost use Rattle.use_text.specs.KeepingSteps.{extended, ended_cuts, kept_after};

use crate::Cut;
use crate::line::line_end;
use crate::pending::Pending;
use std::alloc::{AllocError, Global};
use std::collections::VecDeque;
use std::marker::Model;

/// Cuts a stream into commands, in whatever pieces it comes. A line ends at LF, and the last one may
/// lack it. A line that is white, or a comment alone, gives no command. A line that is `\` between
/// white opens a block, and the next line that is `.` between white ends it: the block is one
/// command. Every other line is one. Of a command that has not ended it holds no more bytes than a
/// command may have, however long it is.
#[derive(Drop)]
pub struct Cutter {
    alloc: Global,
    pending: Pending,
    count: u32,
    waiting: VecDeque<Cut>,
}

impl Model for Cutter {
    ghost use Rattle.std.specs.Prelude.{All, ◌≤◌, ◌+◌};
    ghost use Rattle.use_text.specs.Cuts.{IsCommand};
    ghost use Rattle.use_text.specs.Limits.{max_command, max_lines};
    ghost use Rattle.use_text.specs.Keeping.{Cutting};
    ghost use Rattle.use_text.specs.KeepingSteps.{first_of};

    ghost Value = { Cutting };

    ghost view = { λ c. record { count = c.count; kept = c.pending.kept; held = c.pending.held; waiting = c.waiting.items } };

    ghost invariant = { λ c. (c.count ≤ max_lines) × (first_of c.pending.kept.block ≤ c.count + 1)
        × All (IsCommand c.count) c.waiting.items × (c.pending.held ≤ max_command) };
}

impl Cutter {
    /// A cutter that was fed nothing.
    pub fn new(alloc: Global) -> Cutter
        ensures stands { StandsFor result [] }
        ensures waiting { result.waiting ≡ [] }
        ensures stays { StaysEnded }
        ensures bound { result.held ≤ max_command }
    {
        Cutter {
            alloc,
            pending: Pending::new(alloc),
            count: 0,
            waiting: VecDeque::new(alloc),
        }
    }

    /// Takes the next bytes of the stream. After an `Err` the cutter stands for no bytes.
    pub fn feed(&mut self, piece: &[u8]) -> Result<(), AllocError>
        requires { self.old.count + length piece.now ≤ max_lines }
        ensures fed { OnOk result (IsFed self.old piece.now self.new) }
        ensures lines { OnOk result (self.new.count ≤ self.old.count + length piece.now) }

        // However long a command is, it holds no more of it than this many bytes before it has ended.
        ensures bound { self.new.held ≤ max_command }
    {
        let mut at = 0usize;
        'lines: while let Some(end) = line_end(piece, at) {
            self.extend(&piece[at..end])?;
            self.end_line()?;
            at = end + 1;
        }
        self.extend(&piece[at..])?;
        Ok(())
    }

    /// The next command that has ended, in order.
    pub fn next(&mut self) -> Option<Cut>
        ensures given { self.old.waiting ≡ option_to_list result ++ self.new.waiting }
        ensures none { IfNone result (self.old.waiting ≡ []) }
        ensures rest { (self.new.kept ≡ self.old.kept) × (self.new.count ≡ self.old.count) × (self.new.held ≡ self.old.held) }
        ensures command { IfSome result (IsCommand self.old.count) }
    {
        self.waiting.pop_front()
    }

    /// Takes back a command that is needed no more, for the text of a later one.
    pub fn take_back(&mut self, cut: Cut)
        ensures { self.new ≡ self.old }
    {
        self.pending.take_back(cut.text.into_vec());
    }

    /// Says that the input has ended, and gives the command that its end cut off, if there is one.
    /// The cutter is then as new.
    pub fn finish(&mut self) -> Option<Cut>
        requires { self.old.waiting ≡ [] }
        ensures last { IsFinished self.old (option_to_list result) }
        ensures command { IfSome result (IsCommand (self.old.count + 2)) }
        ensures stands { StandsFor self.new [] }
        ensures waiting { self.new.waiting ≡ [] }
        ensures bound { self.new.held ≤ max_command }
    {
        let number = self.count + 1;
        self.count = 0;
        self.pending.finish(self.alloc, number)
    }

    /// The open line goes on.
    fn extend(&mut self, more: &[u8]) -> Result<(), AllocError>
        ensures kept { OnOk result (self.new.kept ≡ extended self.old.kept more.now) }
        ensures count { self.new.count ≡ self.old.count }
        ensures waiting { self.new.waiting ≡ self.old.waiting }
        ensures bound { self.new.held ≤ max_command }
    {
        self.pending.extend(more)
    }

    /// The open line has ended.
    fn end_line(&mut self) -> Result<(), AllocError>
        requires { self.old.count < max_lines }
        ensures kept { OnOk result (self.new.kept ≡ kept_after (self.old.count + 1) self.old.kept.block self.old.kept) }
        ensures count { OnOk result (self.new.count ≡ self.old.count + 1) }
        ensures waiting { OnOk result (self.new.waiting ≡ self.old.waiting ++ ended_cuts (self.old.count + 1) self.old.kept.block self.old.kept) }
        ensures bound { self.new.held ≤ max_command }
    {
        let number = self.count + 1;
        let cut = self.pending.end_line(self.alloc, number)?;
        self.count = number;
        push_if_some(&mut self.waiting, cut)
    }
}

fn push_if_some(waiting: &mut VecDeque<Cut>, cut: Option<Cut>) -> Result<(), AllocError>
    ensures ok { OnOk result (waiting.new.items ≡ waiting.old.items ++ option_to_list cut) }
    ensures err { OnErr result (waiting.new.items ≡ waiting.old.items) }
{
    if let Some(cut) = cut {
        waiting.push_back(cut)?;
    }
    Ok(())
}
