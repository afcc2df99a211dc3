// The transcript as it is written: in pieces, and not a line at a time.
ghost use Rattle.std.specs.Prelude.{◌≡◌, [], IsErrOf, OnOk};
ghost use Rattle.replay.specs.Pieces.{Tells, UsesSink, pieces};

use crate::rounds::Break;
use wire::{Sink, write_all};

/// How many bytes are kept before they are written.
const PIECE: usize = 32_768;

/// Writes what is kept.
pub(crate) fn flush<K: Sink>(unwritten: &mut Vec<u8>, sink: &mut K) -> Result<(), Break>
    ensures told { Tells (pieces (K.held sink.old) unwritten.old.items) (pieces (K.held sink.new) unwritten.new.items) [] result }
    ensures empty { OnOk result (unwritten.new.items ≡ []) }
    ensures calm { IsErrOf result Break.NoMemory → ⊥ }
    ensures sink { UsesSink K.faults sink.old sink.new (IsErrOf result Break.WriteFault) }
{
    match write_all(sink, unwritten.as_slice()) {
        Ok(()) => {
            unwritten.clear();
            Ok(())
        }
        Err(_) => Err(Break::WriteFault),
    }
}

/// Takes a line of the transcript, and writes what is kept where that is a piece.
pub(crate) fn take_line<K: Sink>(
    unwritten: &mut Vec<u8>,
    sink: &mut K,
    line: &[u8],
) -> Result<(), Break>
    ensures told { Tells (pieces (K.held sink.old) unwritten.old.items) (pieces (K.held sink.new) unwritten.new.items) line.now result }
    ensures sink { UsesSink K.faults sink.old sink.new (IsErrOf result Break.WriteFault) }
{
    match unwritten.extend_from_slice(line) {
        Ok(()) => {}
        Err(_) => return Err(Break::NoMemory),
    }
    if unwritten.len() < PIECE {
        return Ok(());
    }
    flush(unwritten, sink)
}
