ghost use Rattle.std.specs.Prelude.{◌≡◌, ◌≤◌, ◌+◌, ◌++◌, ◌⊎◌, [], List, ℕ, IfOk, OnOk, IsErrOf, false, length};
ghost use Rattle.std.specs.Option.{ForSome};
ghost use Rattle.use_io.specs.Causes.{Rose};
ghost use Rattle.use_io.specs.Shelves.{KeepsFiles};
ghost use Rattle.use_text.specs.declared.cut.Cut.{Cut};
ghost use Rattle.use_text.specs.Cuts.{StaysEnded, cuts, ended};
ghost use Rattle.use_text.specs.Keeping.{StandsFor};
ghost use Rattle.use_text.specs.Limits.{max_lines};
ghost use Rattle.use_syntax.specs.Language.{language};
ghost use Rattle.use_session.specs.Answering.{machine_in};
ghost use Rattle.use_session.specs.Machine.{start};
ghost use Rattle.use_shell.specs.Output.{commands_in, max_files, max_input, play};
ghost use Rattle.use_shell.specs.Plays.{IsCutOff, Plays, PlaysAndEnds, Streams, given};
ghost use Rattle.use_shell.specs.Stops.{StopsByFile};

use crate::commands::{play_last, play_piece};
use crate::moves::take_piece;
use crate::{Manner, Player, Status, Stop};
use grammar_core::Grammar;
use ocl_program::Program;
use std::mem;
use std::sync::ledger::Ledger;
use use_io::{Shelf, Sink, Source};
use use_steps::Steps;
use use_text::Cutter;

/// The most bytes that are taken at once. Their answers are written before more are taken.
const PIECE: usize = 4096;

/// Plays a piece of the input, writes the answers, and tells whether a command ends the run.
fn play_taken<F: Shelf, K: Sink, L: Ledger>(
    manner: Manner,
    player: &mut Player,
    cutter: &mut Cutter,
    piece: &[u8],
    shelf: &mut F,
    sink: &mut K,
    steps: &mut Steps<L>,
) -> Result<bool, Stop>
    requires ready { player.old.session.over ≡ false }
    requires waiting { cutter.old.waiting ≡ [] }
    requires count { cutter.old.count + length piece.now ≤ max_lines }
    ensures plays { ForSome (F.files shelf.old) (λ held. (bytes : List ℕ) (more : List Cut) → StandsFor cutter.old bytes → ended (bytes ++ piece.now) ≡ ended bytes ++ more
        → Plays (play (commands_in manner.files held manner.echo) (machine_in player.old.session) more) player.old player.new (K.written sink.old) (K.written sink.new) steps.old steps.new result) }
    ensures ready { OnOk result (player.new.session.over ≡ false) }
    ensures files { KeepsFiles (F.files shelf.old) (F.files shelf.new) }
    ensures cause { StopsByFile (F.faults shelf.old) (F.faults shelf.new) (K.faults sink.old) (K.faults sink.new) result }
    ensures written { OnOk result (player.new.waiting.items ≡ []) }
    ensures stands { OnOk result ((bytes : List ℕ) → StandsFor cutter.old bytes → StandsFor cutter.new (bytes ++ piece.now)) }
    ensures waiting { IfOk result (λ over. over ≡ false → cutter.new.waiting ≡ []) }
    ensures count { OnOk result (cutter.new.count ≤ cutter.old.count + length piece.now) }
{
    let over = play_piece(manner, player, cutter, piece, shelf, sink, steps)?;
    player.flush(sink)?;
    Ok(over)
}

/// Plays the command that the input's end cuts off, if there is one, and writes its answer.
fn play_end<F: Shelf, K: Sink, L: Ledger>(
    manner: Manner,
    player: &mut Player,
    cutter: &mut Cutter,
    shelf: &mut F,
    sink: &mut K,
    steps: &mut Steps<L>,
) -> Result<(), Stop>
    requires ready { player.old.session.over ≡ false }
    requires waiting { cutter.old.waiting ≡ [] }
    requires count { cutter.old.count + 2 ≤ max_lines }
    ensures plays { ForSome (F.files shelf.old) (λ held. (bytes : List ℕ) (more : List Cut) → StandsFor cutter.old bytes → cuts bytes ≡ ended bytes ++ more
        → PlaysAndEnds (play (commands_in manner.files held manner.echo) (machine_in player.old.session) more) player.old player.new (K.written sink.old) (K.written sink.new) steps.old steps.new result) }
    ensures ready { OnOk result (player.new.session.over ≡ false) }
    ensures files { KeepsFiles (F.files shelf.old) (F.files shelf.new) }
    ensures cause { StopsByFile (F.faults shelf.old) (F.faults shelf.new) (K.faults sink.old) (K.faults sink.new) result }
    ensures written { OnOk result (player.new.waiting.items ≡ []) }
{
    play_last(manner, player, cutter, shelf, sink, steps)?;
    player.flush(sink)
}

/// Plays what is left of a source by a player before its first command, as `play_source` does.
fn play_pieces<S: Source, F: Shelf, K: Sink, L: Ledger>(
    manner: Manner,
    limit: usize,
    player: &mut Player,
    cutter: &mut Cutter,
    source: &mut S,
    shelf: &mut F,
    sink: &mut K,
    steps: &mut Steps<L>,
) -> Result<Status, Stop>
    requires limit { limit ≤ max_input }
    requires files { manner.files ≡ max_files }
    requires stays { StaysEnded }
    requires ready { player.old.session.over ≡ false }
    requires machine { (machine_in player.old.session) ≡ start (machine_in player.old.session).program }
    requires written { player.old.waiting.items ≡ [] }
    requires passed { player.old.failed ≡ false }
    requires waiting { cutter.old.waiting ≡ [] }
    requires stands { StandsFor cutter.old [] }
    requires count { cutter.old.count ≡ 0 }
    ensures played { Streams (F.files shelf.old) (given (machine_in player.old.session).program manner.echo manner.strict) manner.strict limit (S.left source.old) (S.left source.new)
        (K.written sink.old) (K.written sink.new) steps.old steps.new result }
    ensures cut_off { IsErrOf result Stop.Read → ¬ Rose (F.faults shelf.old) (F.faults shelf.new) → IsCutOff (F.files shelf.old) (given (machine_in player.old.session).program manner.echo manner.strict) limit (S.left source.old) (S.left source.new)
        (K.written sink.old) (K.written sink.new) steps.old steps.new }
    ensures read { IsErrOf result Stop.Read → Rose (S.faults source.old) (S.faults source.new) ⊎ Rose (F.faults shelf.old) (F.faults shelf.new) }
    ensures write { IsErrOf result Stop.Write → Rose (K.faults sink.old) (K.faults sink.new) }
    ensures shelf { F.faults shelf.old ≤ F.faults shelf.new }
{
    let mut piece = [0u8; PIECE];
    let mut taken = 0usize;
    'pieces: loop {
        let count = take_piece(source, &mut piece)?;
        if count == 0 {
            play_end(manner, player, cutter, shelf, sink, steps)?;
            return Ok(manner.status(player.failed));
        }
        let within = count.min(limit - taken);
        if play_taken(manner, player, cutter, &piece[..within], shelf, sink, steps)? {
            return Ok(manner.status(player.failed));
        }
        if within < count {
            return Ok(Status::TooLong);
        }
        taken += count;
    }
}

/// Plays a source to its end, to a command that ends the run, or to so many bytes. The commands
/// that end in a piece are answered before the next piece is taken.
pub(crate) fn play_source<S: Source, F: Shelf, K: Sink, L: Ledger>(
    manner: Manner,
    grammar: Grammar,
    program: Program,
    limit: usize,
    source: &mut S,
    shelf: &mut F,
    sink: &mut K,
    steps: &mut Steps<L>,
) -> Result<Status, Stop>
    requires table { grammar ≡ language }
    requires limit { limit ≤ max_input }
    requires files { manner.files ≡ max_files }
    ensures stays { StaysEnded }
    ensures played { Streams (F.files shelf.old) (given program manner.echo manner.strict) manner.strict limit (S.left source.old) (S.left source.new)
        (K.written sink.old) (K.written sink.new) steps.old steps.new result }
    ensures cut_off { IsErrOf result Stop.Read → ¬ Rose (F.faults shelf.old) (F.faults shelf.new) → IsCutOff (F.files shelf.old) (given program manner.echo manner.strict) limit (S.left source.old) (S.left source.new)
        (K.written sink.old) (K.written sink.new) steps.old steps.new }
    ensures read { IsErrOf result Stop.Read → Rose (S.faults source.old) (S.faults source.new) ⊎ Rose (F.faults shelf.old) (F.faults shelf.new) }
    ensures write { IsErrOf result Stop.Write → Rose (K.faults sink.old) (K.faults sink.new) }
    ensures shelf { F.faults shelf.old ≤ F.faults shelf.new }
{
    let mut cutter = Cutter::new(manner.alloc);
    let mut player = Player::new(manner.alloc, grammar, program)?;
    let ended = play_pieces(
        manner,
        limit,
        &mut player,
        &mut cutter,
        source,
        shelf,
        sink,
        steps,
    );
    // The program ends behind this, and the system takes all memory back at once, where to give back
    // each object and each entry of the history takes a tenth of a run.
    mem::forget(player);
    ended
}
