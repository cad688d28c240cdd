ghost use Rattle.std.specs.Prelude.{◌≡◌, ◌≤◌, ◌+◌, ◌++◌, [], List, ℕ, IfOk, OnOk, IsOkUnless, false, true, length};
ghost use Rattle.std.specs.Option.{ForSome};
ghost use Rattle.use_io.specs.Shelves.{KeepsFiles};
ghost use Rattle.use_text.specs.declared.cut.Cut.{Cut};
ghost use Rattle.use_text.specs.Cuts.{IsCommand, cuts, ended};
ghost use Rattle.use_text.specs.Keeping.{StandsFor};
ghost use Rattle.use_text.specs.Limits.{max_lines};
ghost use Rattle.use_text.specs.Refusals.{refusal_at};
ghost use Rattle.use_session.specs.Answering.{machine_in};
ghost use Rattle.use_session.specs.Answers.{refusal_line};
ghost use Rattle.use_shell.specs.Output.{commands_in, max_file, opens_in, play};
ghost use Rattle.use_shell.specs.Plays.{Plays};
ghost use Rattle.use_shell.specs.Stops.{StopsByFile};

use crate::{Manner, Player, Stop};
use std::sync::ledger::Ledger;
use use_io::{Shelf, ShelfFault, Sink};
use use_session::Turn;
use use_steps::Steps;
use use_text::{Code, Cut, Cutter, Family, Place, Refusal};

/// The most bytes of a file of commands.
const MAX_FILE: u32 = 4_194_304;

/// The most bytes that are cut at once.
const PIECE: usize = 4096;

/// Too many files are open.
const F3: Code = Code {
    family: Family::F,
    number: 3,
};

/// Answers a command, and tells whether it ends the run.
#[cycle(commands)]
fn answer<F: Shelf, K: Sink, L: Ledger>(
    manner: Manner,
    player: &mut Player,
    cut: &Cut,
    shelf: &mut F,
    sink: &mut K,
    steps: &mut Steps<L>,
) -> Result<bool, Stop>
    requires ready { player.old.session.over ≡ false }
    requires command { IsCommand max_lines cut.now }
    ensures plays { ForSome (F.files shelf.old) (λ held. Plays (commands_in manner.files held manner.echo (machine_in player.old.session) cut.now)
        player.old player.new (K.written sink.old) (K.written sink.new) steps.old steps.new result) }
    ensures ready { OnOk result (player.new.session.over ≡ false) }
    ensures files { KeepsFiles (F.files shelf.old) (F.files shelf.new) }
    ensures cause { StopsByFile (F.faults shelf.old) (F.faults shelf.new) (K.faults sink.old) (K.faults sink.new) result }
{
    match player.step(manner.echo, cut, steps)? {
        Turn::Quiet => Ok(false),
        Turn::Refused(_) | Turn::CheckFailed => {
            player.failed = true;
            Ok(false)
        }
        Turn::Quit => Ok(true),
        Turn::Fetch { name, place } => {
            open_file(manner, player, name.as_str(), place, shelf, sink, steps)
        }
    }
}

/// Answers a command that opens no file: it is refused.
fn refuse(player: &mut Player, code: Code, place: Place) -> Result<bool, Stop>
    ensures bytes { OnOk result (player.new.waiting.items ≡ player.old.waiting.items ++ refusal_line (refusal_at code place)) }
    ensures over { IfOk result (λ over. over ≡ false) }
    ensures session { player.new.session ≡ player.old.session }
    ensures failed { OnOk result (player.new.failed ≡ true) }
    ensures memory { IsOkUnless result Stop.Memory }
{
    player.refuse(Refusal { code, place })?;
    Ok(false)
}

/// Plays the commands of a file in place, and tells whether one of them ends the run.
#[cycle(commands)]
fn open_file<F: Shelf, K: Sink, L: Ledger>(
    manner: Manner,
    player: &mut Player,
    name: &str,
    place: Place,
    shelf: &mut F,
    sink: &mut K,
    steps: &mut Steps<L>,
) -> Result<bool, Stop>
    requires ready { player.old.session.over ≡ false }
    ensures plays { ForSome (F.files shelf.old) (λ held. Plays (opens_in manner.files held manner.echo (machine_in player.old.session) name.now place)
        player.old player.new (K.written sink.old) (K.written sink.new) steps.old steps.new result) }
    ensures ready { OnOk result (player.new.session.over ≡ false) }
    ensures files { KeepsFiles (F.files shelf.old) (F.files shelf.new) }
    ensures cause { StopsByFile (F.faults shelf.old) (F.faults shelf.new) (K.faults sink.old) (K.faults sink.new) result }
{
    if manner.files == 0 {
        return refuse(player, F3, place);
    }
    player.flush(sink)?;
    match shelf.fetch(manner.alloc, name, MAX_FILE) {
        Ok(bytes) => {
            let inner = manner.within(manner.files - 1);
            play_file(inner, player, &bytes, shelf, sink, steps)
        }
        Err(ShelfFault::Missing) => refuse(player, Code::F1, place),
        Err(ShelfFault::TooLong) => refuse(player, Code::F2, place),
        Err(ShelfFault::Failed) => Err(Stop::Read),
        Err(ShelfFault::Memory) => Err(Stop::Memory),
    }
}

/// Plays the commands of a file, and tells whether one of them ends the run.
#[cycle(commands)]
fn play_file<F: Shelf, K: Sink, L: Ledger>(
    manner: Manner,
    player: &mut Player,
    bytes: &[u8],
    shelf: &mut F,
    sink: &mut K,
    steps: &mut Steps<L>,
) -> Result<bool, Stop>
    requires ready { player.old.session.over ≡ false }
    requires few { length bytes.now ≤ max_file }
    ensures plays { ForSome (F.files shelf.old) (λ held. Plays (play (commands_in manner.files held manner.echo) (machine_in player.old.session) (cuts bytes.now))
        player.old player.new (K.written sink.old) (K.written sink.new) steps.old steps.new result) }
    ensures ready { OnOk result (player.new.session.over ≡ false) }
    ensures files { KeepsFiles (F.files shelf.old) (F.files shelf.new) }
    ensures cause { StopsByFile (F.faults shelf.old) (F.faults shelf.new) (K.faults sink.old) (K.faults sink.new) result }
{
    let mut cutter = Cutter::new(manner.alloc);
    let mut at = 0usize;
    'pieces: while at < bytes.len() {
        let count = PIECE.min(bytes.len() - at);
        let piece = &bytes[at..at + count];
        if play_piece(manner, player, &mut cutter, piece, shelf, sink, steps)? {
            return Ok(true);
        }
        at += count;
    }
    play_last(manner, player, &mut cutter, shelf, sink, steps)
}

/// Plays the commands that end by a piece, and tells whether one of them ends the run.
#[cycle(commands)]
pub(crate) fn play_piece<F: Shelf, K: Sink, L: Ledger>(
    manner: Manner,
    player: &mut Player,
    cutter: &mut Cutter,
    piece: &[u8],
    shelf: &mut F,
    sink: &mut K,
    steps: &mut Steps<L>,
) -> Result<bool, Stop>
    requires ready { player.old.session.over ≡ false }
    requires waiting { cutter.old.waiting ≡ [] }
    requires count { cutter.old.count + length piece.now ≤ max_lines }
    ensures plays { ForSome (F.files shelf.old) (λ held. (bytes : List ℕ) (more : List Cut) → StandsFor cutter.old bytes → ended (bytes ++ piece.now) ≡ ended bytes ++ more → Plays (play (commands_in manner.files held manner.echo) (machine_in player.old.session) more)
        player.old player.new (K.written sink.old) (K.written sink.new) steps.old steps.new result) }
    ensures ready { OnOk result (player.new.session.over ≡ false) }
    ensures files { KeepsFiles (F.files shelf.old) (F.files shelf.new) }
    ensures cause { StopsByFile (F.faults shelf.old) (F.faults shelf.new) (K.faults sink.old) (K.faults sink.new) result }
    ensures stands { OnOk result ((bytes : List ℕ) → StandsFor cutter.old bytes → StandsFor cutter.new (bytes ++ piece.now)) }
    ensures waiting { IfOk result (λ over. over ≡ false → cutter.new.waiting ≡ []) }
    ensures count { OnOk result (cutter.new.count ≤ cutter.old.count + length piece.now) }
{
    cutter.feed(piece)?;
    play_waiting(manner, player, cutter, shelf, sink, steps)
}

/// Plays the command that the end cuts off, if there is one, and tells whether it ends the run.
#[cycle(commands)]
pub(crate) fn play_last<F: Shelf, K: Sink, L: Ledger>(
    manner: Manner,
    player: &mut Player,
    cutter: &mut Cutter,
    shelf: &mut F,
    sink: &mut K,
    steps: &mut Steps<L>,
) -> Result<bool, Stop>
    requires ready { player.old.session.over ≡ false }
    requires waiting { cutter.old.waiting ≡ [] }
    requires count { cutter.old.count + 2 ≤ max_lines }
    ensures plays { ForSome (F.files shelf.old) (λ held. (bytes : List ℕ) (more : List Cut) → StandsFor cutter.old bytes → cuts bytes ≡ ended bytes ++ more → Plays (play (commands_in manner.files held manner.echo) (machine_in player.old.session) more)
        player.old player.new (K.written sink.old) (K.written sink.new) steps.old steps.new result) }
    ensures ready { OnOk result (player.new.session.over ≡ false) }
    ensures files { KeepsFiles (F.files shelf.old) (F.files shelf.new) }
    ensures cause { StopsByFile (F.faults shelf.old) (F.faults shelf.new) (K.faults sink.old) (K.faults sink.new) result }
{
    match cutter.finish() {
        None => Ok(false),
        Some(cut) => answer(manner, player, &cut, shelf, sink, steps),
    }
}

/// Plays the commands that wait, as far as the run goes, and tells whether one of them ends it.
#[cycle(commands)]
fn play_waiting<F: Shelf, K: Sink, L: Ledger>(
    manner: Manner,
    player: &mut Player,
    cutter: &mut Cutter,
    shelf: &mut F,
    sink: &mut K,
    steps: &mut Steps<L>,
) -> Result<bool, Stop>
    requires ready { player.old.session.over ≡ false }
    requires count { cutter.old.count ≤ max_lines }
    ensures plays { ForSome (F.files shelf.old) (λ held. Plays (play (commands_in manner.files held manner.echo) (machine_in player.old.session) cutter.old.waiting)
        player.old player.new (K.written sink.old) (K.written sink.new) steps.old steps.new result) }
    ensures ready { OnOk result (player.new.session.over ≡ false) }
    ensures files { KeepsFiles (F.files shelf.old) (F.files shelf.new) }
    ensures cause { StopsByFile (F.faults shelf.old) (F.faults shelf.new) (K.faults sink.old) (K.faults sink.new) result }
    ensures rest { OnOk result ((cutter.new.kept ≡ cutter.old.kept) × (cutter.new.count ≡ cutter.old.count)) }
    ensures waiting { IfOk result (λ over. over ≡ false → cutter.new.waiting ≡ []) }
{
    'cuts: while let Some(cut) = cutter.next() {
        if answer(manner, player, &cut, shelf, sink, steps)? {
            return Ok(true);
        }
        cutter.take_back(cut);
        player.settle(sink)?;
    }
    Ok(false)
}
