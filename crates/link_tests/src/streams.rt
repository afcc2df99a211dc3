// Sources and sinks over readers and writers of std.
ghost use Rattle.std.specs.Prelude.{◌≤◌, IfOk};

use crate::bytes::{bytes_of, push_answer};
use crate::memory::all_shown;
use std::alloc::{AllocError, Global};
use std::collections::VecDeque;
use std::io;
use std::io::{ErrorKind, Read, Write};
use system::{StreamSink, StreamSource};
use wire::{Sink, Source, write_all};

// A reader and writer of std that answers as it is told to: a number of bytes, or an error. With no answer left it
// answers 0.
#[derive(Drop)]
struct Told {
    answers: VecDeque<Result<usize, ErrorKind>>,
}

impl Told {
    fn of(alloc: Global, row: &str) -> Result<Told, AllocError> {
        let mut answers = VecDeque::new(alloc);
        for word in row.split(' ') {
            answers.push_back(answer_of(word))?;
        }
        Ok(Told { answers })
    }

    fn next(&mut self, most: usize) -> io::Result<usize>
        ensures { IfOk result (λ count. count ≤ most) }
    {
        match self.answers.pop_front() {
            Some(Ok(count)) => Ok(count.min(most)),
            Some(Err(kind)) => Err(io::Error::from(kind)),
            None => Ok(0),
        }
    }
}

impl Read for Told {
    fn read(&mut self, into: &mut [u8]) -> io::Result<usize> {
        self.next(into.len())
    }
}

impl Write for Told {
    fn write(&mut self, piece: &[u8]) -> io::Result<usize> {
        self.next(piece.len())
    }

    fn flush(&mut self) -> io::Result<()> {
        Ok(())
    }
}

fn answer_of(word: &str) -> Result<usize, ErrorKind> {
    match word {
        "interrupted" => Err(ErrorKind::Interrupted),
        "broken" => Err(ErrorKind::BrokenPipe),
        _ => Ok(word.parse::<usize>().unwrap_or(0)),
    }
}

/// So many reads and an empty one, each with the faults so far. To give nothing is the end, and no fault.
pub fn read_shown(alloc: Global, count: usize, row: &str) -> Result<String, AllocError> {
    let mut source = StreamSource::new(Told::of(alloc, row)?);
    let mut room = [0u8; 4];
    let mut out = String::new(alloc);
    for _ in 0..count {
        push_answer(&mut out, source.read(&mut room))?;
        write!(out, "{}, ", source.faults)?;
    }
    push_answer(&mut out, source.read(&mut []))?;
    write!(out, "{}", source.faults)?;
    Ok(out)
}

/// So many writes and an empty one, each with the faults so far. To take nothing of a piece that isn't empty is a fault.
pub fn write_shown(alloc: Global, count: usize, row: &str) -> Result<String, AllocError> {
    let mut sink = StreamSink::new(Told::of(alloc, row)?);
    let mut out = String::new(alloc);
    for _ in 0..count {
        push_answer(&mut out, sink.write(b"abcd"))?;
        write!(out, "{}, ", sink.faults)?;
    }
    push_answer(&mut out, sink.write(b""))?;
    write!(out, "{}", sink.faults)?;
    Ok(out)
}

/// Whether the bytes, and none, are written to a stream, what stands there, and what is read of it up to the limit.
pub fn whole_shown(alloc: Global, limit: usize, row: &str) -> Result<String, AllocError> {
    let bytes = bytes_of(alloc, row)?;
    let mut sink = StreamSink::new(Vec::new(alloc));
    let whole = write_all(&mut sink, bytes.as_slice()).is_ok();
    let empty = write_all(&mut sink, b"").is_ok();
    let mut source = StreamSource::new(sink.writer.as_slice());
    let read = all_shown(alloc, &mut source, limit)?;
    format!(in alloc; "{whole} {empty} {read}")
}
