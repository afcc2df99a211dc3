// Sources and sinks in memory.
use crate::bytes::{bytes_of, first_word, numbers_of, shown};
use std::alloc::{AllocError, Global};
use wire::{
    FailingSink, FailingSource, ReadError, Source, UnfailingSink, UnfailingSource, read_all,
    write_all,
};

/// What is read of the bytes up to the limit, where the calls with these numbers fail.
pub fn source_shown(alloc: Global, limit: usize, row: &str) -> Result<String, AllocError> {
    let (failing, bytes) = first_word(row);
    let failing = numbers_of(alloc, failing)?;
    let mut source = FailingSource::new(bytes_of(alloc, bytes)?, failing);
    all_shown(alloc, &mut source, limit)
}

/// The same of a source that doesn't fail.
pub fn unfailing_source_shown(
    alloc: Global,
    limit: usize,
    bytes: &str,
) -> Result<String, AllocError> {
    let mut source = UnfailingSource::new(bytes_of(alloc, bytes)?);
    all_shown(alloc, &mut source, limit)
}

/// What is read of a source up to the limit.
pub fn all_shown<S: Source>(
    alloc: Global,
    source: &mut S,
    limit: usize,
) -> Result<String, AllocError> {
    match read_all(alloc, source, limit) {
        Ok(bytes) => shown(alloc, bytes.as_slice()),
        Err(ReadError::Failed) => format!(in alloc; "Failed"),
        Err(ReadError::NoMemory) => Err(AllocError),
    }
}

/// Whether the bytes are written whole, what of them stands in the sink, and how many faults there were, where the calls with
/// these numbers fail and one takes at most so many bytes.
pub fn sink_shown(alloc: Global, most: usize, row: &str) -> Result<String, AllocError> {
    let (failing, bytes) = first_word(row);
    let bytes = bytes_of(alloc, bytes)?;
    let mut sink = FailingSink::new(alloc, numbers_of(alloc, failing)?, most);
    let whole = write_all(&mut sink, bytes.as_slice()).is_ok();
    let held = shown(alloc, sink.bytes())?;
    format!(in alloc; "{whole} {held} {}", sink.faults())
}

/// Whether each of the pieces is written, and what stands in a sink with so much room.
pub fn unfailing_sink_shown(alloc: Global, room: usize, row: &str) -> Result<String, AllocError> {
    let mut sink = UnfailingSink::with_room(alloc, room)?;
    let mut whole = true;
    for piece in row.split(' ') {
        let bytes = bytes_of(alloc, piece)?;
        whole = write_all(&mut sink, bytes.as_slice()).is_ok() && whole;
    }
    let held = shown(alloc, sink.bytes())?;
    format!(in alloc; "{whole} {held}")
}
