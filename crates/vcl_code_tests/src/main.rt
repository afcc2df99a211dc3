//! Rows for what a VCL text is made into before it runs: names, expressions and blocks by number (`vcl_code`, `vcl_program`), and
//! what is made of its declarations (`vcl_runner`, `vcl_library`). A row's first word names the call, and behind ` => ` stands what is
//! to be said of the rest. The program prints the rows that go otherwise, and how many rows there are.
#![tactic(auto)]

mod codes;
mod names;
mod numbers;
mod targets;

use std::alloc::{AllocError, Global};
use std::io;

fn main(rt: HostRuntime) -> io::Result<()> {
    let mut count: u64 = 0;
    for line in rt.lines(rt.alloc()) {
        let line = line?;
        if !line.starts_with('#') {
            count = count.saturating_add(1);
            check_row(rt, line.as_str())?;
        }
    }
    println!(rt; "{count} rows")
}

fn check_row(rt: HostRuntime, line: &str) -> io::Result<()> {
    let (row, wanted) = line.split_once(" => ").unwrap_or((line, ""));
    let said = said(rt.alloc(), row)?;
    if said.as_str() != wanted {
        println!(rt; "{row} => {said}")?;
    }
    Ok(())
}

fn said(alloc: Global, row: &str) -> Result<String, AllocError> {
    let (word, rest) = row.split_once(' ').unwrap_or((row, ""));
    match word {
        "value" => numbers::value_shown(alloc, rest),
        "block" => numbers::block_shown(alloc, rest),
        "sound" => codes::matches_shown(alloc, rest),
        "backends" | "network" | "director" | "blocks" => codes::code_shown(alloc, word, rest),
        "target" => targets::target_shown(alloc, rest),
        "server" => targets::server_shown(alloc, rest),
        _ => names::name_shown(alloc, word, rest),
    }
}
