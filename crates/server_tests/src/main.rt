//! Rows for a server's connections (`server`), over links in memory: each line of the input has settings and what a client sends
//! and, behind ` => `, how the connection ended, its rounds, and what the client got. Behind `cuts` a connection is served with each
//! front of its input, behind `pieces` with reads of each size. The program prints the rows that go otherwise, and how many rows
//! there are.
#![tactic(auto)]

mod backends;
mod connections;
mod scripts;

use std::io;
use std::sync::Wait;

fn main(rt: HostRuntime) -> io::Result<()> {
    let mut count: u64 = 0;
    for line in rt.lines(rt.alloc()) {
        let line = line?;
        if !line.starts_with('#') {
            count = count.saturating_add(1);
            check_row(rt, &rt, line.as_str())?;
        }
    }
    println!(rt; "{count} rows")
}

fn check_row<W: Wait>(rt: HostRuntime, waits: &W, line: &str) -> io::Result<()> {
    let (row, wanted) = line.split_once(" => ").unwrap_or((line, ""));
    let (word, rest) = row.split_once(' ').unwrap_or((row, ""));
    let said = connections::connection_shown(waits, rt.alloc(), word, rest)?;
    if said.as_str() != wanted {
        println!(rt; "{row} => {said}")?;
    }
    Ok(())
}
