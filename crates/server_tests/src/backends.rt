// What a connection's backend answers, in turn, by the names in the setting `replies`:
//   page                   a whole reply
//   early, stall           its input ends inside the body, or a read fails there
//   deaf                   the request isn't taken
//   nonsense               no reply at all
//   eight, nine            so many interim replies and then a whole one; nine are one too many
//   refused                the dial fails
use row_settings::{numbers_of, setting};
use std::alloc::{AllocError, Global};
use std::collections::VecDeque;
use wire::{FailingDialer, Plan};

const PAGE: &[u8] = b"HTTP/1.1 200 OK\r\nContent-Length: 2\r\n\r\nhi";

const EARLY: &[u8] = b"HTTP/1.1 200 OK\r\nContent-Length: 5\r\n\r\nhel";

const NONSENSE: &[u8] = b"what\r\n\r\n";

const INTERIM: &[u8] = b"HTTP/1.1 100 Continue\r\n\r\n";

// A page behind so many interim replies.
fn behind_interim(alloc: Global, count: u32) -> Result<Vec<u8>, AllocError> {
    let mut bytes = Vec::new(alloc);
    for _ in 0..count {
        bytes.extend_from_slice(INTERIM)?;
    }
    bytes.extend_from_slice(PAGE)?;
    Ok(bytes)
}

// What comes on the link.
fn reply_of(alloc: Global, name: &str) -> Result<Vec<u8>, AllocError> {
    match name {
        "early" => EARLY.to_vec(alloc),
        "nonsense" => NONSENSE.to_vec(alloc),
        "eight" => behind_interim(alloc, 8),
        "nine" => behind_interim(alloc, 9),
        _ => PAGE.to_vec(alloc),
    }
}

// A backend's link with this reply. Where it stalls, three reads of thirteen bytes give all but the last byte of the page.
fn plan_of(alloc: Global, name: &str) -> Result<Plan, AllocError> {
    let (failing_read, most) = if name == "stall" {
        ("3", 13)
    } else {
        ("", 4096)
    };
    let failing_write = if name == "deaf" { "0" } else { "" };
    Ok(Plan {
        input: reply_of(alloc, name)?,
        failing_reads: numbers_of(alloc, failing_read)?,
        failing_writes: numbers_of(alloc, failing_write)?,
        most,
    })
}

// The backend's links, one for each dial that doesn't fail.
fn plans(alloc: Global, names: &str) -> Result<VecDeque<Plan>, AllocError> {
    let mut plans = VecDeque::new(alloc);
    for name in names.split(',') {
        if name != "refused" {
            plans.push_back(plan_of(alloc, name)?)?;
        }
    }
    Ok(plans)
}

// The dials that fail.
fn failing_dials(alloc: Global, names: &str) -> Result<Vec<u64>, AllocError> {
    let mut failing = Vec::new(alloc);
    for (dial, name) in names.split(',').enumerate() {
        if name == "refused" {
            failing.push(dial as u64)?;
        }
    }
    Ok(failing)
}

/// A dialer to this backend.
pub fn dialer_of(alloc: Global, row: &str) -> Result<FailingDialer, AllocError> {
    let names = setting(row, "replies");
    let links = plans(alloc, names)?;
    let failing = failing_dials(alloc, names)?;
    Ok(FailingDialer::new(alloc, links, failing))
}
