// Connections in memory.
use crate::bytes::{bytes_of, first_word, numbers_of, push_answer, shown};
use std::alloc::{AllocError, Global};
use wire::{Direction, FailingLink, Link, Peer, write_link};

/// How the calls of one direction go, of which those with these numbers fail, and one moves at most so many bytes.
pub fn direction(alloc: Global, failing: &str, most: usize) -> Result<Direction, AllocError> {
    Ok(Direction::new(numbers_of(alloc, failing)?, most))
}

/// A connection of a client on which these bytes come.
pub fn link(alloc: Global, input: Vec<u8>, reads: Direction, writes: Direction) -> FailingLink {
    FailingLink::new(alloc, input, reads, writes, Peer::Accepted([127, 0, 0, 1]))
}

/// Whether the bytes are written whole, what of them was taken, and how many faults there were.
pub fn write_shown(alloc: Global, most: usize, row: &str) -> Result<String, AllocError> {
    let (failing, bytes) = first_word(row);
    let bytes = bytes_of(alloc, bytes)?;
    let (reads, writes) = (direction(alloc, "", 2)?, direction(alloc, failing, most)?);
    let mut link = link(alloc, Vec::new(alloc), reads, writes);
    let whole = write_link(&mut link, bytes.as_slice()).is_ok();
    let took = shown(alloc, link.took())?;
    format!(in alloc; "{whole} {took} {}", link.write_faults())
}

/// What so many reads into the same four bytes answer, what these bytes are then, and the faults.
pub fn read_shown(alloc: Global, count: usize, row: &str) -> Result<String, AllocError> {
    let (failing, row) = first_word(row);
    let (most, bytes) = first_word(row);
    let reads = direction(alloc, failing, most.parse::<usize>().unwrap_or(0))?;
    let (writes, bytes) = (direction(alloc, "", 9)?, bytes_of(alloc, bytes)?);
    reads_shown(alloc, count, &mut link(alloc, bytes, reads, writes))
}

fn reads_shown(alloc: Global, count: usize, link: &mut FailingLink) -> Result<String, AllocError> {
    let mut room = [0u8; 4];
    let mut out = String::new(alloc);
    for _ in 0..count {
        push_answer(&mut out, link.read(&mut room))?;
    }
    link.shut();
    let room = shown(alloc, room.as_slice())?;
    write!(out, "{room} {} {}", link.read_faults(), link.write_faults())?;
    Ok(out)
}

/// What so many waits answer of a connection of which this many find nothing yet, and whether it is open before it is ended and
/// behind that.
pub fn wait_shown(alloc: Global, count: usize, row: &str) -> Result<String, AllocError> {
    let (reads, writes) = (direction(alloc, "", 1)?, direction(alloc, "", 1)?);
    let quiet = row.parse::<u64>().unwrap_or(0);
    let mut link = link(alloc, Vec::new(alloc), reads, writes).quiet_for(quiet);
    let mut out = String::new(alloc);
    for _ in 0..count {
        write!(out, "{:?} ", link.wait())?;
    }
    let before = link.is_open();
    link.shut();
    write!(out, "{before} {}", link.is_open())?;
    Ok(out)
}
