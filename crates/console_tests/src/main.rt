//! Rows for a console's connection (`console_link`), over a link in memory: each line of the input has settings and what an operator
//! sends and, behind ` => `, how the talk ended, its lines, and what the operator got. The program prints the rows that go otherwise,
//! and how many rows there are.
#![tactic(auto)]

mod talks;

use std::io;
use std::sync::Wait;

fn main(rt: HostRuntime) -> io::Result<()> {
    let mut count: u64 = 0;
    for line in rt.lines(rt.alloc()) {
        let line = line?;
        if !line.starts_with('#') {
            count = count.saturating_add(1);
            check_row(rt, &rt, line.as_str())?;
        }
    }
    println!(rt; "{count} rows")
}

fn check_row<W: Wait>(rt: HostRuntime, waits: &W, line: &str) -> io::Result<()> {
    let (row, wanted) = line.split_once(" => ").unwrap_or((line, ""));
    let said = talks::talk_shown(waits, rt.alloc(), row)?;
    if said.as_str() != wanted {
        println!(rt; "{row} => {said}")?;
    }
    Ok(())
}
