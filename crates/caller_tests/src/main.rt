//! Rows for callers that share one cache (`shared_cache`), in threads of their own. Each line of the input has a word, what is asked
//! for and, behind ` => `, what is to be said of it. The program prints the rows that go otherwise, and how many rows there are.
#![tactic(auto)]

mod clock;
mod crowd;
mod sharing;

use ban_lurker::LurkCore;
use flat_core::FlatCore;
use std::alloc::{AllocError, Global};
use std::io;
use std::sync::Wait;
use std::thread::Threads;

fn main(rt: HostRuntime) -> io::Result<()> {
    let mut count: u64 = 0;
    for line in rt.lines(rt.alloc()) {
        let line = line?;
        if !line.starts_with('#') {
            count = count.saturating_add(1);
            check_row(rt, &rt, line.as_str())?;
        }
    }
    println!(rt; "{count} rows")
}

fn check_row<W: Threads + Wait + Sync>(rt: HostRuntime, threads: &W, line: &str) -> io::Result<()> {
    let (row, wanted) = line.split_once(" => ").unwrap_or((line, ""));
    let said = said::<FlatCore, W>(threads, rt.alloc(), row)?;
    if said.as_str() != wanted {
        println!(rt; "{row} => {said}")?;
    }
    Ok(())
}

fn said<C: LurkCore + Drop + Send, W: Threads + Wait + Sync>(
    threads: &W,
    alloc: Global,
    row: &str,
) -> Result<String, AllocError> {
    let (word, rest) = row.split_once(' ').unwrap_or((row, ""));
    match word {
        "callers" => sharing::callers_shown::<C, W>(threads, alloc, rest),
        "passes" => sharing::passes_shown::<C, W>(threads, alloc, rest),
        "errand" => sharing::errand_shown::<C, W>(threads, alloc, rest),
        "waiting" => sharing::waiting_shown::<C, W>(threads, alloc, rest),
        _ => format!(in alloc; "no such row"),
    }
}
