ghost use Rattle.std.specs.Prelude.{◌<◌, OnOk, OnErr, IsOkUnless, length};
ghost use Rattle.std.specs.Io.{ReadsAtMost};
ghost use Rattle.std.specs.Io.KnownBytes.{Appends, ReadConsumes};
ghost use Rattle.use_shell.specs.Endings.{AppendsFront};
ghost use Rattle.use_shell.specs.Stops.{StopsByRead, StopsByWrite};

use crate::Stop;
use use_io::{Sink, SinkFault, Source};

/// Takes the next bytes of a source.
pub fn take_piece<S: Source>(source: &mut S, piece: &mut [u8]) -> Result<usize, Stop>
    requires { 0 < length piece.old }
    ensures bound { ReadsAtMost result piece.new }
    ensures bytes { ReadConsumes (S.left source.old) (S.left source.new) result piece.new }
    ensures cause { StopsByRead (S.faults source.old) (S.faults source.new) result }
    ensures only { IsOkUnless result Stop.Read }
{
    match source.take(piece) {
        Ok(count) => Ok(count),
        Err(_) => Err(Stop::Read),
    }
}

/// Puts all the bytes. After a fault nothing more is put.
pub fn put_all<K: Sink>(sink: &mut K, bytes: &[u8]) -> Result<(), Stop>
    ensures ok { OnOk result (Appends (K.written sink.old) (K.written sink.new) bytes.now) }
    ensures err { OnErr result (AppendsFront (K.written sink.old) (K.written sink.new) bytes.now) }
    ensures cause { StopsByWrite (K.faults sink.old) (K.faults sink.new) result }
{
    let mut at = 0usize;
    'parts: while at < bytes.len() {
        match sink.put(&bytes[at..]) {
            Ok(count) => at += count,
            Err(SinkFault::Failed) => return Err(Stop::Write),
            Err(SinkFault::Memory) => return Err(Stop::Memory),
        }
    }
    Ok(())
}
