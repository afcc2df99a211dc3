//! Rows for the journal: each line of the input is `worked NUMBER => LINE`, a line of the worked journal (`worked.rt`), or
//! `written NUMBER => LINE`, the same where it goes into a sink, or `stints NUMBER => LINES`, the journal of a run of stints (`stints.rt`), or
//! `shown NAME => WORDS`, what a line says of a reply (`replies.rt`), or `call NAME => WORDS` (`calls.rt`), or
//! `read TEXT => KIND`, the kind of line that a text is read as, or its column and fault (`lines.rt`). The program prints the rows
//! that go otherwise, and how many rows there are.
#![tactic(auto)]

mod calls;
mod lines;
mod made;
mod replies;
mod stints;
mod worked;

use std::alloc::{AllocError, Global};
use std::io;
use std::sync::Wait;

fn main(rt: HostRuntime) -> io::Result<()> {
    let mut count: u64 = 0;
    for line in rt.lines(rt.alloc()) {
        let line = line?;
        if !line.starts_with('#') {
            count = count.saturating_add(1);
            let (row, wanted) = line.split_once(" => ").unwrap_or((line.as_str(), ""));
            let said = said(&rt, rt.alloc(), row)?;
            if said.as_str() != wanted {
                println!(rt; "{row} => {said}")?;
            }
        }
    }
    println!(rt; "{count} rows")
}

// A number, and behind it the calls of a sink that fail.
fn with_calls(alloc: Global, rest: &str) -> Result<(usize, Vec<u64>), AllocError> {
    let (number, failing) = rest.split_once(' ').unwrap_or((rest, ""));
    let mut calls = Vec::new(alloc);
    for call in failing.split(' ') {
        if let Ok(call) = call.parse::<u64>() {
            calls.push(call)?;
        }
    }
    Ok((number.parse::<usize>().unwrap_or(0), calls))
}

// A line of the journal that goes into a sink, by its number.
fn written(alloc: Global, rest: &str) -> Result<String, AllocError> {
    let (number, calls) = with_calls(alloc, rest)?;
    worked::written(alloc, number, calls)
}

// A run of stints, by how many there are but the last.
fn run_of_stints<R: Wait>(rt: &R, alloc: Global, rest: &str) -> Result<String, AllocError> {
    let (more, calls) = with_calls(alloc, rest)?;
    stints::said(rt, alloc, more, calls)
}

fn said<R: Wait>(rt: &R, alloc: Global, row: &str) -> Result<String, AllocError> {
    let (kind, rest) = row.split_once(' ').unwrap_or((row, ""));
    match kind {
        "worked" => worked::line(alloc, rest.parse::<usize>().unwrap_or(0)),
        "written" => written(alloc, rest),
        "stints" => run_of_stints(rt, alloc, rest),
        "shown" => replies::said(alloc, rest),
        "call" => calls::said(alloc, rest),
        "read" => lines::said(alloc, rest),
        _ => String::from_str(alloc, "no such row"),
    }
}
