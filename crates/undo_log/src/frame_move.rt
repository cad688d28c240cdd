ghost use Rattle.std.specs.Prelude.{◌≡◌, ◌<◌, ◌-◌, ◌^◌, length, IfOk, OnOk};
ghost use Rattle.undo_log.specs.Moves.{frames_after, frames_before, moved_after, moved_before};

use entry_states::{Frame, Frames};
use std::alloc::{AllocError, Global};

/// What an accepted command did with the frames that are open.
#[derive(Debug, Drop)]
pub enum FrameMove {
    Stay,
    /// It entered a call. Of an entry that can be taken back, only the frame's call counts.
    Entered(Frame),
    /// It left a call. Of an entry that can be carried out again, only the frame's call counts.
    Left(Frame),
}

impl FrameMove {
    /// Takes the move back, and gives the one that leads on again.
    pub fn take_back(self, alloc: Global, frames: &mut Frames) -> Result<FrameMove, AllocError>
        requires { length frames.old < 2 ^ 32 - 1 }
        ensures frames { OnOk result (frames.new ≡ frames_before self frames.old) }
        ensures moved { IfOk result (λ m. m ≡ moved_before self frames.old) }
    {
        match self {
            FrameMove::Stay => Ok(FrameMove::Stay),
            FrameMove::Entered(frame) => match frames.pop() {
                Some(top) => Ok(FrameMove::Entered(top)),
                None => Ok(FrameMove::Entered(frame)),
            },
            FrameMove::Left(frame) => {
                let bare = frame.bare_copy(alloc)?;
                frames.push(frame)?;
                Ok(FrameMove::Left(bare))
            }
        }
    }

    /// Carries the move out again, and gives the one that can be taken back.
    pub fn carry_out(self, alloc: Global, frames: &mut Frames) -> Result<FrameMove, AllocError>
        requires { length frames.old < 2 ^ 32 - 1 }
        ensures frames { OnOk result (frames.new ≡ frames_after self frames.old) }
        ensures moved { IfOk result (λ m. m ≡ moved_after self frames.old) }
    {
        match self {
            FrameMove::Stay => Ok(FrameMove::Stay),
            FrameMove::Entered(frame) => {
                let bare = frame.bare_copy(alloc)?;
                frames.push(frame)?;
                Ok(FrameMove::Entered(bare))
            }
            FrameMove::Left(frame) => match frames.leave_top(alloc)? {
                Some(top) => Ok(FrameMove::Left(top)),
                None => Ok(FrameMove::Left(frame)),
            },
        }
    }
}
