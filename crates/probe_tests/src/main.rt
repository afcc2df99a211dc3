//! Rows for probes, their windows and their boards. A row's first word names what is made, and behind ` => ` stands what is to be said of the
//! rest. The program prints the rows that go otherwise, and how many rows there are.
#![tactic(auto)]

mod boards;
mod probes;
mod windows;

use std::alloc::{AllocError, Global};
use std::io;

fn main(rt: HostRuntime) -> io::Result<()> {
    let mut count: u64 = 0;
    for line in rt.lines(rt.alloc()) {
        let line = line?;
        if !line.starts_with('#') {
            count = count.saturating_add(1);
            let (row, wanted) = line.split_once(" => ").unwrap_or((line.as_str(), ""));
            let said = said(rt.alloc(), row)?;
            if said.as_str() != wanted {
                println!(rt; "{row} => {said}")?;
            }
        }
    }
    println!(rt; "{count} rows")
}

fn said(alloc: Global, row: &str) -> Result<String, AllocError> {
    let (word, rest) = row.split_once(' ').unwrap_or((row, ""));
    match word {
        "window" => windows::healths_shown(alloc, rest),
        "probe" => probes::probe_shown(alloc, rest),
        _ => boards::told_shown(alloc, rest),
    }
}
