// Whole pieces and whole sources, over single calls.
ghost use Rattle.std.specs.Prelude.{◌≡◌, ◌+◌, ◌<◌, ◌≤◌, length, vec_len, IfOk, OnOk, OnErr, IsErrOf};
ghost use Rattle.std.specs.Io.KnownBytes.{Appends, IsAtEnd};
ghost use Rattle.wire.specs.Causes.{HasCause, Rose};
ghost use Rattle.wire.specs.Content.{AddsFront, AppendsPart, LosesFront, ReadsUpTo};

use crate::{Sink, Source};
use std::alloc::{AllocError, Global};
use std::error::Error;
use std::fmt;

/// A sink failed, or took nothing of a piece that isn't empty.
#[derive(Clone, Copy, Debug, PartialEq, Eq)]
pub struct WriteFault;

/// Why a source wasn't read to its end.
#[derive(Clone, Copy, Debug, PartialEq, Eq)]
pub enum ReadError {
    /// A read failed, and the source's count of faults rose.
    Failed,
    NoMemory,
}

impl fmt::Display for WriteFault {
    fn fmt<W: fmt::Write>(&self, f: &mut fmt::Formatter<W>) -> fmt::Result {
        f.write_str("writing failed")
    }
}

impl Error for WriteFault {}

impl fmt::Display for ReadError {
    fn fmt<W: fmt::Write>(&self, f: &mut fmt::Formatter<W>) -> fmt::Result {
        match self {
            ReadError::Failed => f.write_str("reading failed"),
            ReadError::NoMemory => f.write_str("out of memory"),
        }
    }
}

impl Error for ReadError {}

impl From<AllocError> for ReadError {
    ghost use Rattle.wire.specs.declared.copying.ReadError.TheVariants.{NoMemory};

    ghost from_gives = { λ _ error. error ≡ NoMemory };

    fn from(_error: AllocError) -> ReadError {
        ReadError::NoMemory
    }
}

/// Writes the whole piece. It takes no memory.
pub fn write_all<K: Sink>(sink: &mut K, piece: &[u8]) -> Result<(), WriteFault>
    ensures whole { OnOk result (Appends (K.held sink.old) (K.held sink.new) piece.now) }
    ensures part { OnErr result (AppendsPart (K.held sink.old) (K.held sink.new) piece.now) }
    ensures cause { HasCause (K.faults sink.old) (K.faults sink.new) result }
{
    let mut at = 0;
    while at < piece.len() {
        match sink.write(&piece[at..]) {
            Ok(0) => return Err(WriteFault),
            Ok(taken) => at += taken,
            Err(_) => return Err(WriteFault),
        }
    }
    Ok(())
}

const ROOM: usize = 65536;

/// Reads a source to its end, or until more than `limit` bytes have come: then one byte more than
/// `limit` is given, and the others stay in the source.
pub fn read_all<S: Source>(
    alloc: Global,
    source: &mut S,
    limit: usize,
) -> Result<Vec<u8>, ReadError>
    ensures bytes { IfOk result (λ bytes. ReadsUpTo limit (S.left source.old) (S.left source.new) bytes.items) }
    ensures front { OnErr result (LosesFront (S.left source.old) (S.left source.new)) }
    ensures later { S.faults source.old ≤ S.faults source.new }
    ensures failed { IsErrOf result ReadError.Failed → Rose (S.faults source.old) (S.faults source.new) }
{
    read_through(alloc, source, limit, ROOM)
}

// The same in pieces of at most `size` bytes.
fn read_through<S: Source>(
    alloc: Global,
    source: &mut S,
    limit: usize,
    size: usize,
) -> Result<Vec<u8>, ReadError>
    requires { 0 < size }
    ensures bytes { IfOk result (λ bytes. ReadsUpTo limit (S.left source.old) (S.left source.new) bytes.items) }
    ensures front { OnErr result (LosesFront (S.left source.old) (S.left source.new)) }
    ensures later { S.faults source.old ≤ S.faults source.new }
    ensures failed { IsErrOf result ReadError.Failed → Rose (S.faults source.old) (S.faults source.new) }
{
    let mut bytes = Vec::new(alloc);
    let mut room = vec![in alloc; 0u8; size]?;
    while bytes.len() <= limit {
        let wanted = room.len().min((limit - bytes.len()).saturating_add(1));
        match read_more(source, &mut room[..wanted], &mut bytes) {
            Ok(0) => break,
            Ok(_) => {}
            Err(error) => return Err(error),
        }
    }
    Ok(bytes)
}

// Reads once into the room, and puts what came at the end of the bytes.
fn read_more<S: Source>(
    source: &mut S,
    room: &mut [u8],
    bytes: &mut Vec<u8>,
) -> Result<usize, ReadError>
    ensures count { IfOk result (λ count. (count ≤ length room.old) × (vec_len bytes.new ≡ vec_len bytes.old + count)) }
    ensures more { OnOk result (AddsFront (S.left source.old) (S.left source.new) bytes.old.items bytes.new.items) }
    ensures end { IfOk result (λ count. count ≡ 0 → 0 < length room.old → IsAtEnd (S.left source.new)) }
    ensures front { OnErr result (LosesFront (S.left source.old) (S.left source.new)) }
    ensures later { S.faults source.old ≤ S.faults source.new }
    ensures failed { IsErrOf result ReadError.Failed → Rose (S.faults source.old) (S.faults source.new) }
{
    let count = match source.read(room) {
        Ok(count) => count,
        Err(_) => return Err(ReadError::Failed),
    };
    bytes.extend_from_slice(&room[..count])?;
    Ok(count)
}
