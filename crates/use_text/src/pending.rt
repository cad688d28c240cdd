ghost use Rattle.std.specs.Prelude.{◌≡◌, [], ◌≤◌, ◌+◌, IfSome, OnSome, OnOk, OnErr, IfOk, vec_len, option_to_list, None};
ghost use Rattle.std.specs.Option.{option_map};
ghost use Rattle.use_text.specs.Cuts.{IsCommand};
ghost use Rattle.use_text.specs.Limits.{max_command, max_lines};
ghost use Rattle.use_text.specs.KeepingSteps.{nothing, extended, ended_cuts, kept_after, finished_cuts, text_cut, first_of, block_begun, block_on, lines_end, held_text};

use crate::block::OpenBlock;
use crate::marks::LineMarks;
use crate::{Bytes, Cut, Fate};
use std::alloc::{AllocError, Global};
use std::marker::Model;
use std::mem;

/// The most bytes of a command.
const MAX_COMMAND: usize = 65536;

/// The most texts that are kept for later ones, and the most bytes of memory of each.
const MAX_SPARE: usize = 512;

const SHORT: usize = 256;

/// What of the stream has not ended: an open line, and the open block, if the line is in one.
#[derive(Drop)]
pub struct Pending {
    /// The text so far of the command, or of the block's lines that have ended, where that text is
    /// too long and this one is not.
    bytes: Vec<u8>,
    /// Whether the text so far is longer than a command may be.
    is_long: bool,
    marks: LineMarks,
    block: Option<OpenBlock>,
    /// Texts that are needed no more, for later ones. They are few and short.
    spare: Vec<Vec<u8>>,
}

impl Model for Pending {
    ghost use Rattle.std.specs.Prelude.{◌≤◌, vec_len};
    ghost use Rattle.std.specs.Option.{option_map};
    ghost use Rattle.use_text.specs.Limits.{max_command};
    ghost use Rattle.use_text.specs.Keeping.{Kept};
    ghost use Rattle.use_text.specs.KeepingSteps.{Holding, held_text, held_block, lines_end};

    ghost Value = { Holding };

    ghost view = { λ p. record {
      kept = record { marks = p.marks; text = held_text p.is_long p.bytes.items; block = option_map (held_block p.bytes.items) p.block };
      held = vec_len p.bytes;
    } };

    ghost invariant = { λ p. (vec_len p.bytes ≤ max_command) × (lines_end p.block ≤ vec_len p.bytes) };
}

impl Pending {
    /// An empty line, outside of blocks.
    pub fn new(alloc: Global) -> Pending
        ensures kept { result.kept ≡ nothing }
        ensures bound { result.held ≤ max_command }
    {
        Pending {
            bytes: Vec::new(alloc),
            is_long: false,
            marks: LineMarks::of(&[]),
            block: None,
            spare: Vec::new(alloc),
        }
    }

    /// Takes back a text that is needed no more, for a later one.
    pub fn take_back(&mut self, text: Vec<u8>)
        ensures { self.new ≡ self.old }
    {
        if text.capacity() <= SHORT && self.spare.len() < MAX_SPARE {
            let _ = self.spare.push(text);
        }
    }

    /// The memory of a text that was taken back, or none.
    fn take_spare(&mut self, alloc: Global) -> Vec<u8>
        ensures text { result.items ≡ [] }
        ensures same { self.new ≡ self.old }
    {
        match self.spare.pop() {
            Some(mut text) => {
                text.clear();
                text
            }
            None => Vec::new(alloc),
        }
    }

    /// More bytes of the open line.
    pub fn extend(&mut self, more: &[u8]) -> Result<(), AllocError>
        ensures kept { OnOk result (self.new.kept ≡ extended self.old.kept more.now) }
        ensures first { first_of self.new.kept.block ≡ first_of self.old.kept.block }
        ensures bound { self.new.held ≤ max_command }
    {
        self.marks = self.marks.with(more);
        if self.is_long {
            return Ok(());
        }
        if more.len() > MAX_COMMAND - self.bytes.len() {
            self.is_long = true;
            self.bytes.truncate(end_of_lines(self.block));
            return Ok(());
        }
        self.bytes.extend_from_slice(more)
    }

    /// The open line has ended, and has this number. What it gives, if it is a command or ends a
    /// block, is taken out.
    pub fn end_line(&mut self, alloc: Global, number: u32) -> Result<Option<Cut>, AllocError>
        requires number { number ≤ max_lines }
        requires first { first_of self.old.kept.block ≤ number }
        ensures cut { IfOk result (λ cut. option_to_list cut ≡ ended_cuts number self.old.kept.block self.old.kept) }
        ensures kept { OnOk result (self.new.kept ≡ kept_after number self.old.kept.block self.old.kept) }
        ensures command { IfOk result (λ cut. IfSome cut (IsCommand number)) }
        ensures first { OnOk result (first_of self.new.kept.block ≤ number + 1) }
        ensures err { OnErr result (first_of self.new.kept.block ≡ first_of self.old.kept.block) }
        ensures bound { self.new.held ≤ max_command }
    {
        if self.block.is_none() {
            return Ok(self.end_plain_line(alloc, number));
        }
        if self.marks.is_only(b'.') {
            return Ok(self.take_lines(alloc, Fate::Whole));
        }
        self.go_on()?;
        Ok(None)
    }

    /// The command that the input's end makes of what is open, if there is one; the open line has
    /// this number.
    pub fn finish(&mut self, alloc: Global, number: u32) -> Option<Cut>
        requires number { number ≤ max_lines + 1 }
        requires first { first_of self.old.kept.block ≤ number }
        ensures cut { option_to_list result ≡ finished_cuts number self.old.kept.block self.old.kept }
        ensures kept { self.new.kept ≡ nothing }
        ensures command { IfSome result (IsCommand (number + 1)) }
        ensures bound { self.new.held ≤ max_command }
    {
        let marks = self.marks;
        match self.block {
            None => self.finish_plain_line(alloc, number),
            Some(block) => {
                if marks.is_only(b'.') {
                    self.take_lines(alloc, Fate::Whole)
                } else if marks.begun {
                    Some(self.take_text(alloc, block.first_line, Fate::Unfinished))
                } else {
                    self.take_lines(alloc, Fate::Unfinished)
                }
            }
        }
    }

    /// The open line has ended outside of blocks.
    fn end_plain_line(&mut self, alloc: Global, number: u32) -> Option<Cut>
        requires { number ≤ max_lines }
        ensures cut { option_to_list result ≡ ended_cuts number None self.old.kept }
        ensures kept { self.new.kept ≡ kept_after number None self.old.kept }
        ensures command { IfSome result (IsCommand number) }
        ensures bound { self.new.held ≤ max_command }
    {
        if self.marks.is_only(b'\\') {
            self.begin_block(number + 1);
            None
        } else if self.marks.is_idle() {
            self.restart();
            None
        } else {
            Some(self.take_text(alloc, number, Fate::Whole))
        }
    }

    /// The input has ended in an open line outside of blocks.
    fn finish_plain_line(&mut self, alloc: Global, number: u32) -> Option<Cut>
        requires { number ≤ max_lines + 1 }
        ensures cut { option_to_list result ≡ finished_cuts number None self.old.kept }
        ensures kept { self.new.kept ≡ nothing }
        ensures command { IfSome result (IsCommand (number + 1)) }
        ensures bound { self.new.held ≤ max_command }
    {
        if self.marks.is_only(b'\\') {
            self.restart();
            Some(text_cut(Vec::new(alloc), false, number + 1, Fate::Unfinished))
        } else if self.marks.is_idle() {
            self.restart();
            None
        } else {
            Some(self.take_text(alloc, number, Fate::Whole))
        }
    }

    /// An empty line stands outside of blocks.
    fn restart(&mut self)
        ensures kept { self.new.kept ≡ nothing }
        ensures bound { self.new.held ≤ max_command }
    {
        self.bytes.clear();
        self.is_long = false;
        self.marks = LineMarks::of(&[]);
        self.block = None;
    }

    /// An empty line stands in a block that begins with it.
    fn begin_block(&mut self, first_line: u32)
        ensures kept { self.new.kept ≡ block_begun first_line }
        ensures bound { self.new.held ≤ max_command }
    {
        self.restart();
        self.block = Some(OpenBlock {
            first_line,
            end: Some(0),
        });
    }

    /// The open line of a block has ended, and goes to its text.
    fn go_on(&mut self) -> Result<(), AllocError>
        ensures kept { OnOk result (IfSome self.old.kept.block (λ b. self.new.kept ≡ block_on b.first self.old.kept.text)) }
        ensures first { first_of self.new.kept.block ≡ first_of self.old.kept.block }
        ensures bound { self.new.held ≤ max_command }
    {
        let Some(block) = self.block else {
            return Ok(());
        };
        self.marks = LineMarks::of(&[]);
        let end = self.bytes.len();
        if self.is_long {
            self.bytes.clear();
            self.block = Some(OpenBlock { end: None, ..block });
            return Ok(());
        }
        if end == MAX_COMMAND {
            self.is_long = true;
        } else {
            self.bytes.push(b'\n')?;
        }
        self.block = Some(OpenBlock {
            end: Some(end),
            ..block
        });
        Ok(())
    }

    /// The command of the text so far. Behind it stands an empty line outside of blocks.
    fn take_text(&mut self, alloc: Global, first_line: u32, fate: Fate) -> Cut
        ensures cut { result ≡ text_cut self.old.kept.text first_line fate }
        ensures kept { self.new.kept ≡ nothing }
        ensures command { IsCommand first_line result }
        ensures bound { self.new.held ≤ max_command }
    {
        self.block = None;
        let room = self.take_spare(alloc);
        let bytes = mem::replace(&mut self.bytes, room);
        let is_long = self.is_long;
        self.restart();
        text_cut(bytes, is_long, first_line, fate)
    }

    /// The command of the lines of the open block, if there is one. Behind it stands an empty line
    /// outside of blocks.
    fn take_lines(&mut self, alloc: Global, fate: Fate) -> Option<Cut>
        ensures cut { result ≡ option_map (λ b. text_cut b.lines b.first fate) self.old.kept.block }
        ensures kept { OnSome result (self.new.kept ≡ nothing) }
        ensures command { IfSome result (IsCommand (first_of self.old.kept.block)) }
        ensures bound { self.new.held ≤ max_command }
    {
        let block = self.block?;
        self.bytes.truncate(end_of_lines(Some(block)));
        self.is_long = block.end.is_none();
        Some(self.take_text(alloc, block.first_line, fate))
    }
}

fn end_of_lines(block: Option<OpenBlock>) -> usize
    ensures { result ≡ lines_end block }
{
    match block {
        Some(block) => block.end.unwrap_or(0),
        None => 0,
    }
}

/// A command of this text, or of one that is too long.
fn text_cut(text: Vec<u8>, is_long: bool, first_line: u32, fate: Fate) -> Cut
    requires { vec_len text ≤ max_command }
    ensures cut { result ≡ text_cut (held_text is_long text.items) first_line fate }
    ensures command { IsCommand first_line result }
{
    let mut text = text;
    if is_long {
        text.clear();
    }
    Cut {
        text: Bytes::from_vec(text),
        first_line,
        fate: if is_long { Fate::TooLong } else { fate },
    }
}
