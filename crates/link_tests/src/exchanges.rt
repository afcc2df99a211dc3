// Exchanges with a backend in memory, and replies as bytes.
use crate::bytes::{bytes_of, first_word, numbers_of, shown};
use crate::dialers::last_took;
use backend_link::{exchange, read_reply};
use http_heads::{Backend, BackendRequest, Exchange, Fields, RequestHead};
use std::alloc::{AllocError, Global};
use std::collections::VecDeque;
use units::Text;
use wire::{FailingDialer, Plan};

// The status and the length of the reply's body, or the number of the fault and 0.
fn answer_shown(alloc: Global, answer: Exchange) -> Result<String, AllocError> {
    match answer {
        Exchange::Reply(head, body) => {
            format!(in alloc; "{} {}", head.status, body.bytes().len())
        }
        Exchange::Fault(number) => format!(in alloc; "{number} 0"),
        Exchange::NoMemory => Err(AllocError),
    }
}

fn backend(alloc: Global) -> Result<Backend, AllocError> {
    Ok(Backend {
        name: Text::of(alloc, b"origin")?,
        host: Text::of(alloc, b"192.0.2.7")?,
        port: Text::of(alloc, b"8080")?,
    })
}

fn request(alloc: Global, method: &str) -> Result<BackendRequest, AllocError> {
    let head = RequestHead {
        method: Text::of(alloc, method.as_bytes())?,
        url: Text::of(alloc, b"/")?,
        version: 11,
        fields: Fields::new(alloc),
    };
    Ok(BackendRequest {
        head,
        body: Text::of(alloc, b"body")?,
    })
}

fn ask(alloc: Global, dialer: &mut FailingDialer, method: &str) -> Result<String, AllocError> {
    let (backend, request) = (backend(alloc)?, request(alloc, method)?);
    answer_shown(alloc, exchange(alloc, dialer, &backend, &request))
}

// The dialer of one connection.
fn dialer(alloc: Global, plan: Plan, failing: Vec<u64>) -> Result<FailingDialer, AllocError> {
    let mut planned = VecDeque::new(alloc);
    planned.push_back(plan)?;
    Ok(FailingDialer::new(alloc, planned, failing))
}

// A connection that gives these bytes, with no call that fails.
fn plain(alloc: Global, input: Vec<u8>, most: usize) -> Plan {
    Plan {
        input,
        failing_reads: Vec::new(alloc),
        failing_writes: Vec::new(alloc),
        most,
    }
}

/// The answer to a request with this method, where the dials, reads and writes with these numbers fail, and a call moves at most
/// so many bytes.
pub fn exchange_shown(alloc: Global, most: usize, row: &str) -> Result<String, AllocError> {
    let (dials, row) = first_word(row);
    let (reads, row) = first_word(row);
    let (writes, row) = first_word(row);
    let (method, bytes) = first_word(row);
    let mut plan = plain(alloc, bytes_of(alloc, bytes)?, most);
    plan.failing_reads = numbers_of(alloc, reads)?;
    plan.failing_writes = numbers_of(alloc, writes)?;
    let mut dialer = dialer(alloc, plan, numbers_of(alloc, dials)?)?;
    ask(alloc, &mut dialer, method)
}

/// The answer where only so many of the bytes come.
pub fn front_shown(alloc: Global, count: usize, row: &str) -> Result<String, AllocError> {
    let mut input = bytes_of(alloc, row)?;
    input.truncate(count);
    let mut dialer = dialer(alloc, plain(alloc, input, 7), Vec::new(alloc))?;
    ask(alloc, &mut dialer, "GET")
}

/// The answer and what the connection took, where a call moves at most so many bytes.
pub fn conversation_shown(alloc: Global, most: usize, row: &str) -> Result<String, AllocError> {
    let plan = plain(alloc, bytes_of(alloc, row)?, most);
    let mut dialer = dialer(alloc, plan, Vec::new(alloc))?;
    let answer = ask(alloc, &mut dialer, "GET")?;
    let took = shown(alloc, last_took(&dialer).unwrap_or(b""))?;
    format!(in alloc; "{answer} {took}")
}

/// What the bytes come to behind so many interim replies, for a request with this method.
pub fn reply_shown(alloc: Global, interim: usize, row: &str) -> Result<String, AllocError> {
    let (method, bytes) = first_word(row);
    let mut text = Vec::new(alloc);
    for _ in 0..interim {
        text.extend_from_slice(b"HTTP/1.1 100 Continue\r\n\r\n")?;
    }
    text.extend_from_slice(bytes_of(alloc, bytes)?.as_slice())?;
    answer_shown(alloc, read_reply(alloc, text.as_slice(), method == "HEAD")?)
}
