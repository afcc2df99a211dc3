// Dialers in memory.
use crate::bytes::{bytes_of, first_word, numbers_of, shown};
use std::alloc::{AllocError, Global};
use std::collections::VecDeque;
use units::Text;
use wire::{DialError, DialLimits, Dialer, FailingDialer, Link, Plan, UnfailingDialer, write_link};

// Limits that no dialer in memory feels.
const LIMITS: DialLimits = DialLimits {
    connecting: 1,
    first_byte: 1,
    between_bytes: 1,
    whole: Some(1),
    most_open: None,
};

// Writes over a connection, takes one byte from it, and hands it back. Whether it could be dialed.
fn talk<D: Dialer>(dialer: &mut D, host: &Text) -> Result<bool, AllocError> {
    let mut link = match dialer.dial(host, host) {
        Ok(link) => link,
        Err(DialError::Failed) => return Ok(false),
        Err(DialError::NoMemory) => return Err(AllocError),
    };
    let _ = write_link(&mut link, b"hello");
    let _ = link.read(&mut [0u8; 1]);
    link.allow_reuse();
    link.shut();
    dialer.hang_up(link);
    Ok(true)
}

/// What the connection took that was handed back last; none where the last dial failed.
pub fn last_took(dialer: &FailingDialer) -> Option<&[u8]> {
    let dial = dialer.latest()?.item.as_ref()?;
    Some(dial.link()?.took())
}

// Behind what stands there: whether it was dialed, and what the connection took.
fn push_talk(
    out: &mut String,
    alloc: Global,
    is_dialed: bool,
    took: Option<&[u8]>,
) -> Result<(), AllocError> {
    match took {
        Some(took) => {
            let took = shown(alloc, took)?;
            write!(out, "{is_dialed} {took}, ")
        }
        None => write!(out, "{is_dialed} none, "),
    }
}

// A connection on which `a` comes, and whose read and write with this number fail.
fn plan(alloc: Global, failing: &str) -> Result<Plan, AllocError> {
    Ok(Plan {
        input: b"a".to_vec(alloc)?,
        failing_reads: numbers_of(alloc, failing)?,
        failing_writes: numbers_of(alloc, failing)?,
        most: 3,
    })
}

fn plans(alloc: Global, row: &str) -> Result<VecDeque<Plan>, AllocError> {
    let mut planned = VecDeque::new(alloc);
    for failing in row.split(' ') {
        planned.push_back(plan(alloc, failing)?)?;
    }
    Ok(planned)
}

/// So many talks, where the dials with these numbers fail, and one connection is planned for each word behind.
pub fn dials_shown(alloc: Global, count: usize, row: &str) -> Result<String, AllocError> {
    let (failing, planned) = first_word(row);
    let failing = numbers_of(alloc, failing)?;
    let mut dialer = FailingDialer::new(alloc, plans(alloc, planned)?, failing);
    dialer.within(LIMITS);
    let host = Text::of(alloc, b"h")?;
    let mut out = String::new(alloc);
    for _ in 0..count {
        let is_dialed = talk(&mut dialer, &host)?;
        push_talk(&mut out, alloc, is_dialed, last_took(&dialer))?;
    }
    Ok(out)
}

// A dialer with one connection, on which these bytes come and which has so much room.
fn unfailing(alloc: Global, room: &str, bytes: &str) -> Result<UnfailingDialer, AllocError> {
    let mut planned = VecDeque::new(alloc);
    planned.push_back(bytes_of(alloc, bytes)?)?;
    let room = room.parse::<usize>().unwrap_or(0);
    Ok(UnfailingDialer::new(alloc, planned, room))
}

/// So many talks with a dialer that doesn't fail.
pub fn unfailing_dials_shown(alloc: Global, count: usize, row: &str) -> Result<String, AllocError> {
    let (room, bytes) = first_word(row);
    let mut dialer = unfailing(alloc, room, bytes)?;
    dialer.within(LIMITS);
    let host = Text::of(alloc, b"h")?;
    let mut out = String::new(alloc);
    for _ in 0..count {
        let is_dialed = talk(&mut dialer, &host)?;
        let took = dialer.latest().map(|link| link.bytes());
        push_talk(&mut out, alloc, is_dialed, took)?;
    }
    Ok(out)
}
