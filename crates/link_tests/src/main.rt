//! Rows for the links: `wire`, `system`, `message_reader`, `connection` and `backend_link`. Each line of the input has the name
//! of a call, a number, what else it is made with and, behind ` => `, what is to be said of it. Two numbers with `-` between
//! stand for each from the first to the last. The program prints the rows that go otherwise, and how many rows there are.
#![tactic(auto)]

mod bytes;
mod crowds;
mod dialers;
mod exchanges;
mod links;
mod memory;
mod messages;
mod process;
mod reuse;
mod serving;
mod streams;
mod tcp;

use std::alloc::{AllocError, AllocGlobal, Global};
use std::io;
use std::net::{Net, TcpListener, TcpStream};
use std::random::RandomSource;
use std::rt::Clock;
use std::sync::Wait;
use std::thread::Threads;
use system::Outside;

fn main(rt: HostRuntime) -> io::Result<()> {
    let mut count: u64 = 0;
    for line in rt.lines(rt.alloc()) {
        let line = line?;
        if !line.starts_with('#') {
            count = count.saturating_add(1);
            print_row(&rt, rt, line.as_str())?;
        }
    }
    println!(rt; "{count} rows")
}

// Prints the row for each number with which it goes otherwise than it says. Its bounds are those of `Outside` written out, as a call
// from `main` asks.
fn print_row<
    R: Net<Listener = TcpListener, Stream = TcpStream>
        + AllocGlobal
        + Clock
        + Eprint
        + RandomSource
        + Threads
        + Wait
        + Copy
        + Drop
        + Send
        + 'static,
>(rt: &HostRuntime, outside: R, line: &str) -> io::Result<()> {
    let (row, wanted) = line.split_once(" => ").unwrap_or((line, ""));
    let (word, row) = row.split_once(' ').unwrap_or((row, ""));
    let (numbers, rest) = row.split_once(' ').unwrap_or((row, ""));
    let (first, last) = numbers.split_once('-').unwrap_or((numbers, numbers));
    let first = first.parse::<usize>().unwrap_or(0);
    for number in first..=last.parse::<usize>().unwrap_or(0) {
        let said = said(rt, outside, word, number, rest)?;
        if said.as_str() != wanted {
            println!(rt; "{word} {number} {rest} => {said}")?;
        }
    }
    Ok(())
}

fn said<R: Outside + Threads + Send + 'static>(
    rt: &HostRuntime,
    outside: R,
    word: &str,
    number: usize,
    row: &str,
) -> Result<String, AllocError> {
    let alloc = rt.alloc();
    match word {
        "word" => process::word_shown(rt, alloc, number),
        "tell" => process::tell_shown(rt, alloc, row),
        "system_clock" => process::system_clock_shown(*rt, alloc, number),
        "tcp" => tcp::tcp_shown(outside, alloc, number),
        "tcp_within" => tcp::within_shown(outside, alloc, number),
        "tcp_name" => tcp::name_shown(outside, alloc, row),
        "crowd" => crowds::crowd_shown(outside, alloc, number),
        "full" => crowds::full_shown(outside, alloc, number),
        "refused" => crowds::refused_shown(outside, alloc),
        "reuse" => reuse::reuse_shown(outside, alloc, row),
        "rest" => process::rest_shown(*rt, alloc, number),
        "clock" => process::clock_shown(alloc, number, row),
        "stream_read" => streams::read_shown(alloc, number, row),
        "stream_write" => streams::write_shown(alloc, number, row),
        "whole_stream" => streams::whole_shown(alloc, number, row),
        _ => memory_said(alloc, word, number, row),
    }
}

fn memory_said(alloc: Global, word: &str, number: usize, row: &str) -> Result<String, AllocError> {
    match word {
        "source" => memory::source_shown(alloc, number, row),
        "unfailing_source" => memory::unfailing_source_shown(alloc, number, row),
        "sink" => memory::sink_shown(alloc, number, row),
        "unfailing_sink" => memory::unfailing_sink_shown(alloc, number, row),
        "link_write" => links::write_shown(alloc, number, row),
        "link_read" => links::read_shown(alloc, number, row),
        "link_wait" => links::wait_shown(alloc, number, row),
        "dials" => dialers::dials_shown(alloc, number, row),
        "unfailing_dials" => dialers::unfailing_dials_shown(alloc, number, row),
        _ => message_said(alloc, word, number, row),
    }
}

fn message_said(alloc: Global, word: &str, number: usize, row: &str) -> Result<String, AllocError> {
    match word {
        "message" => messages::message_shown(alloc, number, row),
        "head" => messages::head_shown(alloc, number, row),
        "serve" => serving::serve_shown(alloc, number, row),
        "exchange" => exchanges::exchange_shown(alloc, number, row),
        "front" => exchanges::front_shown(alloc, number, row),
        "conversation" => exchanges::conversation_shown(alloc, number, row),
        "reply" => exchanges::reply_shown(alloc, number, row),
        _ => format!(in alloc; "no such row"),
    }
}
