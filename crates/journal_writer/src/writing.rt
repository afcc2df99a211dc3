// Writing a journal.
ghost use Rattle.std.specs.Prelude.{◌≤◌, [], IsErrOf, OnErr, OnOk};
ghost use Rattle.std.specs.Io.KnownBytes.{Appends};
ghost use Rattle.wire.specs.Causes.{Rose};
ghost use Rattle.journal_writer.specs.Pieces.{GainsFront};
ghost use Rattle.journal_writer.specs.Segments.{first_text, segment_text};

use crate::pieces::{flush, put_entries};
use crate::{Closing, JournalError};
use cache_law::{Boot, Entry, Params};
use journal_text::push_first;
use std::alloc::Global;
use wire::Sink;

/// Writes the first line of the journal of a run with these limits and this opening VCL. Where it fails the sink has a front of
/// it; a fault of the sink comes only where its count rose.
pub fn write_first<K: Sink>(
    alloc: Global,
    sink: &mut K,
    params: &Params,
    boot: &Boot,
) -> Result<(), JournalError>
    ensures whole { OnOk result (Appends (K.held sink.old) (K.held sink.new) (first_text params.now boot.now)) }
    ensures front { OnErr result (GainsFront (K.held sink.old) [] (K.held sink.new) (first_text params.now boot.now)) }
    ensures later { K.faults sink.old ≤ K.faults sink.new }
    ensures failed { IsErrOf result JournalError.WriteFault → Rose (K.faults sink.old) (K.faults sink.new) }
{
    let mut unwritten = Vec::new(alloc);
    if push_first(&mut unwritten, alloc, params, boot).is_err() {
        return Err(JournalError::NoMemory);
    }
    flush(sink, &mut unwritten)
}

/// Writes the lines of a segment, and the line that closes it. Where it fails the sink has a front of them; a fault of the sink
/// comes only where its count rose.
pub fn write_segment<K: Sink>(
    alloc: Global,
    sink: &mut K,
    entries: &[Entry],
    closing: Closing,
) -> Result<(), JournalError>
    ensures whole { OnOk result (Appends (K.held sink.old) (K.held sink.new) (segment_text entries.now closing)) }
    ensures front { OnErr result (GainsFront (K.held sink.old) [] (K.held sink.new) (segment_text entries.now closing)) }
    ensures later { K.faults sink.old ≤ K.faults sink.new }
    ensures failed { IsErrOf result JournalError.WriteFault → Rose (K.faults sink.old) (K.faults sink.new) }
{
    let mut unwritten = Vec::new(alloc);
    put_entries(alloc, sink, &mut unwritten, entries)?;
    unwritten.extend_from_slice(closing.text())?;
    flush(sink, &mut unwritten)
}
