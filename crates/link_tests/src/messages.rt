// Heads and bodies that come over a connection.
use crate::bytes::{bytes_of, shown};
use crate::links::{direction, link};
use http_bodies::Framing;
use http_heads::RequestHead;
use message_reader::{Intake, Stop, fill, read_body, read_head};
use std::alloc::{AllocError, Global};
use units::Text;
use wire::{Direction, FailingLink, Link};

// A connection on which the bytes of a row come, and on which the reads go so.
fn link_of(alloc: Global, row: &str, reads: Direction) -> Result<FailingLink, AllocError> {
    let (input, writes) = (bytes_of(alloc, row)?, direction(alloc, "", 1)?);
    Ok(link(alloc, input, reads, writes))
}

// The URL of a request's head, and a body of three bytes.
fn request(alloc: Global, link: &mut FailingLink, held: &mut Intake) -> Result<(Text, Text), Stop> {
    let mut room = [0u8; 64];
    let head: RequestHead = read_head(alloc, link, held, &mut room)?;
    let body = read_body(alloc, link, held, &mut room, Framing::Length(3), 3)?;
    Ok((head.url, body))
}

/// The URL of a request, its body of three bytes, and what is held once so many reads were made as bytes came.
pub fn message_shown(alloc: Global, most: usize, row: &str) -> Result<String, AllocError> {
    let mut link = link_of(alloc, row, direction(alloc, "", most)?)?;
    let mut held = Intake::new(alloc);
    let Ok((url, body)) = request(alloc, &mut link, &mut held) else {
        return format!(in alloc; "no request");
    };
    for _ in 0..row.len() {
        let _ = fill(&mut link, &mut held, &mut [0u8; 64]);
    }
    let rest = shown(alloc, held.bytes())?;
    format!(in alloc; "{url:?} {body:?} {rest}")
}

/// Whether a head is read that comes whole, and the faults, where the read behind its last byte fails.
pub fn head_shown(alloc: Global, most: usize, row: &str) -> Result<String, AllocError> {
    if most == 0 {
        return format!(in alloc; "nothing comes");
    }
    let last = bytes_of(alloc, row)?.len().div_ceil(most) as u64;
    let reads = Direction::new(vec![in alloc; last]?, most);
    let mut link = link_of(alloc, row, reads)?;
    let mut held = Intake::new(alloc);
    let mut room = [0u8; 64];
    let head: Result<RequestHead, Stop> = read_head(alloc, &mut link, &mut held, &mut room);
    format!(in alloc; "{} {}", head.is_ok(), link.read_faults())
}
