// Sources and sinks over std's readers and writers.
ghost use Rattle.std.specs.Prelude.{◌≡◌, ◌≤◌};
ghost use Rattle.std.specs.Io.{ReadsAtMost, WritesAtMost};
ghost use Rattle.std.specs.Io.KnownBytes.{ReadConsumes, WriteAppends};
ghost use Rattle.wire.specs.Causes.{HasCause, Settles, TakesOrRose};

use std::io;
use std::io::{ErrorKind, Read, Write};
use wire::{Failed, Sink, Source};

// How often a call is made at most where signals interrupt it.
const TRIES: u64 = 1 << 32;

// What one answer of a reader or writer comes to. None where a signal interrupted the call, which is to be made again.
fn settled(
    answer: io::Result<usize>,
    none_is_fault: bool,
    faults: &mut u64,
) -> Option<Result<usize, Failed>>
    ensures settles { Settles answer none_is_fault result faults.old faults.new }
    ensures later { faults.old ≤ faults.new }
{
    match answer {
        Ok(count) => {
            if count == 0 && none_is_fault {
                *faults = faults.saturating_add(1);
            }
            Some(Ok(count))
        }
        Err(error) => {
            *faults = faults.saturating_add(1);
            if error.kind() == ErrorKind::Interrupted {
                None
            } else {
                Some(Err(Failed))
            }
        }
    }
}

// A read, which is made again where a signal interrupted it; each error is counted.
pub(crate) fn read_counted<R: Read>(
    reader: &mut R,
    into: &mut [u8],
    faults: &mut u64,
) -> Result<usize, Failed>
    ensures bound { ReadsAtMost result into.new }
    ensures bytes { ReadConsumes (R.remaining reader.old) (R.remaining reader.new) result into.new }
    ensures cause { HasCause faults.old faults.new result }
{
    for turn in 0..TRIES {
        let answer = reader.read(into);
        if let Some(settled) = settled(answer, false, faults) {
            return settled;
        }
    }
    Err(Failed)
}

// A write, in the same way. To take nothing of a piece that isn't empty is counted too.
pub(crate) fn write_counted<W: Write>(
    writer: &mut W,
    piece: &[u8],
    faults: &mut u64,
) -> Result<usize, Failed>
    ensures bound { WritesAtMost result piece.now }
    ensures bytes { WriteAppends (W.contents writer.old) (W.contents writer.new) result piece.now }
    ensures cause { HasCause faults.old faults.new result }
    ensures takes { TakesOrRose faults.old faults.new result piece.now }
{
    for turn in 0..TRIES {
        let answer = writer.write(piece);
        if let Some(settled) = settled(answer, !piece.is_empty(), faults) {
            return settled;
        }
    }
    Err(Failed)
}

/// A source over a reader. It tells of the bytes what the reader tells: standard input tells nothing.
#[derive(Drop)]
pub struct StreamSource<R: Read + Drop> {
    pub reader: R,
    pub faults: u64,
}

impl<R: Read + Drop> StreamSource<R> {
    pub fn new(reader: R) -> StreamSource<R>
        ensures { result ≡ record { reader = reader; faults = 0 } }
    {
        StreamSource { reader, faults: 0 }
    }
}

impl<R: Read + Drop> Source for StreamSource<R> {
    ghost left = { λ s. R.remaining s.reader };

    ghost faults = { λ s. s.faults };

    /// A read that a signal interrupted counts as a fault, and is made again.
    fn read(&mut self, into: &mut [u8]) -> Result<usize, Failed> {
        read_counted(&mut self.reader, into, &mut self.faults)
    }
}

/// A sink over a writer. It tells of the bytes what the writer tells: standard output tells nothing.
#[derive(Drop)]
pub struct StreamSink<W: Write + Drop> {
    pub writer: W,
    pub faults: u64,
}

impl<W: Write + Drop> StreamSink<W> {
    pub fn new(writer: W) -> StreamSink<W>
        ensures { result ≡ record { writer = writer; faults = 0 } }
    {
        StreamSink { writer, faults: 0 }
    }
}

impl<W: Write + Drop> Sink for StreamSink<W> {
    ghost held = { λ s. W.contents s.writer };

    ghost faults = { λ s. s.faults };

    /// A write that a signal interrupted counts as a fault, and is made again.
    fn write(&mut self, piece: &[u8]) -> Result<usize, Failed> {
        write_counted(&mut self.writer, piece, &mut self.faults)
    }
}
