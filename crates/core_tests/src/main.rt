//! Random steps of the plain cache (`flat_core`) and of the lazy one (`lazy_core`), whose answers are compared. Each line of the input
//! has how many steps are played and from which seed, and, behind ` => `, what is to be said of them. The program prints of each row how
//! often each call and each answer came, the rows that go otherwise, and how many rows there are.
#![tactic(auto)]

mod dice;
mod moves;
mod play;
mod tally;
mod twins;

use std::io;

fn main(rt: HostRuntime) -> io::Result<()> {
    let mut count: u64 = 0;
    for line in rt.lines(rt.alloc()) {
        let line = line?;
        if !line.starts_with('#') {
            count = count.saturating_add(1);
            check_row(rt, line.as_str())?;
        }
    }
    println!(rt; "{count} rows")
}

fn check_row(rt: HostRuntime, line: &str) -> io::Result<()> {
    let (row, wanted) = line.split_once(" => ").unwrap_or((line, ""));
    let played = play::play(rt.alloc(), row)?;
    let counts = played.counts.as_str();
    eprintln!(rt; "{row}: {counts}")?;
    let said = played.said.as_str();
    if said != wanted {
        println!(rt; "{row} => {said}")?;
    }
    Ok(())
}
