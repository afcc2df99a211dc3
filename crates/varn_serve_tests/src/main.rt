//! Rows for `varn_serve`: whole runs over a world in memory. Each line of the input has settings of a run and what its clients send
//! and, behind ` => `, what is to be said of it. Behind `gate` the first caller that would dial is held until a call of the other one
//! is answered. The program prints the rows that go otherwise, and how many rows there are.
#![tactic(auto)]

mod holding;
mod run_worlds;
mod runs;
mod telling;

use std::io;
use std::sync::Wait;
use std::thread::Threads;

fn main(rt: HostRuntime) -> io::Result<()> {
    let mut count: u64 = 0;
    for line in rt.lines(rt.alloc()) {
        let line = line?;
        if !line.starts_with('#') {
            count = count.saturating_add(1);
            check_row(rt, &rt, line.as_str())?;
        }
    }
    println!(rt; "{count} rows")
}

fn check_row<W: Threads + Wait + Sync>(rt: HostRuntime, threads: &W, line: &str) -> io::Result<()> {
    let (row, wanted) = line.split_once(" => ").unwrap_or((line, ""));
    let (word, rest) = row.split_once(' ').unwrap_or((row, ""));
    let said = match word {
        "gate" => runs::held_shown(threads, rt.alloc(), rest)?,
        _ => runs::run_shown(threads, rt.alloc(), rest)?,
    };
    if said.as_str() != wanted {
        println!(rt; "{row} => {said}")?;
    }
    Ok(())
}
