//! Rows for bans (`ban_expr`), and for the size of an entry (`cache_law`). Each line of the input has the name of a call, what it is
//! made with and, behind ` => `, what is to be said of it. The program prints the rows that go otherwise, and how many rows
//! there are.
#![tactic(auto)]

mod bans;
mod lines;
mod sizes;

use std::alloc::{AllocError, Global};
use std::io;

fn main(rt: HostRuntime) -> io::Result<()> {
    let mut count: u64 = 0;
    for line in rt.lines(rt.alloc()) {
        let line = line?;
        if !line.starts_with('#') {
            count = count.saturating_add(1);
            check_row(rt, line.as_str())?;
        }
    }
    println!(rt; "{count} rows")
}

fn check_row(rt: HostRuntime, line: &str) -> io::Result<()> {
    let (row, wanted) = line.split_once(" => ").unwrap_or((line, ""));
    let said = said(rt.alloc(), row)?;
    if said.as_str() != wanted {
        println!(rt; "{row} => {said}")?;
    }
    Ok(())
}

fn said(alloc: Global, row: &str) -> Result<String, AllocError> {
    let (word, rest) = row.split_once(' ').unwrap_or((row, ""));
    match word {
        "entry_bytes" => sizes::bytes_shown(alloc, rest),
        _ => bans::ban_shown(alloc, word, rest),
    }
}
