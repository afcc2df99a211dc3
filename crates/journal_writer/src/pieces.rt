// A text that is written in pieces.
ghost use Rattle.std.specs.Prelude.{◌≡◌, ◌≤◌, [], IsErrOf, OnErr, OnOk};
ghost use Rattle.wire.specs.Causes.{Rose};
ghost use Rattle.journal_writer.specs.Pieces.{GainsFront, Puts};
ghost use Rattle.journal_writer.specs.Segments.{entries_text, text_of_entry};

use crate::JournalError;
use cache_law::Entry;
use journal_text::push_entry;
use std::alloc::Global;
use wire::{Sink, write_all};

/// How many bytes are kept before they are written.
const PIECE: usize = 65_536;

/// Writes what is kept.
pub(crate) fn flush<K: Sink>(sink: &mut K, unwritten: &mut Vec<u8>) -> Result<(), JournalError>
    ensures put { OnOk result (Puts (K.held sink.old) unwritten.old.items (K.held sink.new) unwritten.new.items []) }
    ensures empty { OnOk result (unwritten.new.items ≡ []) }
    ensures front { OnErr result (GainsFront (K.held sink.old) unwritten.old.items (K.held sink.new) []) }
    ensures later { K.faults sink.old ≤ K.faults sink.new }
    ensures failed { IsErrOf result JournalError.WriteFault → Rose (K.faults sink.old) (K.faults sink.new) }
{
    match write_all(sink, unwritten.as_slice()) {
        Ok(()) => {
            unwritten.clear();
            Ok(())
        }
        Err(_) => Err(JournalError::WriteFault),
    }
}

/// Keeps the line of an entry, and writes what is kept where that is a piece.
pub(crate) fn put_entry<K: Sink>(
    alloc: Global,
    sink: &mut K,
    unwritten: &mut Vec<u8>,
    entry: &Entry,
) -> Result<(), JournalError>
    ensures put { OnOk result (Puts (K.held sink.old) unwritten.old.items (K.held sink.new) unwritten.new.items (text_of_entry entry.now)) }
    ensures front { OnErr result (GainsFront (K.held sink.old) unwritten.old.items (K.held sink.new) (text_of_entry entry.now)) }
    ensures later { K.faults sink.old ≤ K.faults sink.new }
    ensures failed { IsErrOf result JournalError.WriteFault → Rose (K.faults sink.old) (K.faults sink.new) }
{
    if push_entry(unwritten, alloc, entry).is_err() {
        return Err(JournalError::NoMemory);
    }
    if unwritten.len() < PIECE {
        return Ok(());
    }
    flush(sink, unwritten)
}

/// The same with all entries, one behind another.
pub(crate) fn put_entries<K: Sink>(
    alloc: Global,
    sink: &mut K,
    unwritten: &mut Vec<u8>,
    entries: &[Entry],
) -> Result<(), JournalError>
    ensures put { OnOk result (Puts (K.held sink.old) unwritten.old.items (K.held sink.new) unwritten.new.items (entries_text entries.now)) }
    ensures front { OnErr result (GainsFront (K.held sink.old) unwritten.old.items (K.held sink.new) (entries_text entries.now)) }
    ensures later { K.faults sink.old ≤ K.faults sink.new }
    ensures failed { IsErrOf result JournalError.WriteFault → Rose (K.faults sink.old) (K.faults sink.new) }
{
    for entry in entries {
        if let Err(error) = put_entry(alloc, sink, unwritten, entry) {
            return Err(error);
        }
    }
    Ok(())
}
