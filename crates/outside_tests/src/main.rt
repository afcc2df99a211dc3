//! Rows for what a server takes from its outside (`world`, `system`), and for its door and its workers (`entrance`, `workers`). Each
//! line of the input has a word that names what is done, settings NAME=VALUE and, behind ` => `, what is to be said of it. The
//! program prints the rows that go otherwise, and how many rows there are.
#![tactic(auto)]

mod doors;
mod journals;
mod listeners;
mod memory_world;
mod numbering;
mod system_world;
mod together;
mod working;
mod worlds;

use std::alloc::AllocGlobal;
use std::io;
use std::net::{Net, TcpListener, TcpStream};
use std::random::RandomSource;
use std::rt::{Clock, Files};
use std::sync::Wait;
use std::thread::Threads;
use system::Outside;

fn main(rt: HostRuntime) -> io::Result<()> {
    let mut count: u64 = 0;
    for line in rt.lines(rt.alloc()) {
        let line = line?;
        if !line.starts_with('#') {
            count = count.saturating_add(1);
            check_row(rt, &rt, line.as_str())?;
        }
    }
    println!(rt; "{count} rows")
}

// Its bounds are those of `Outside` written out, as a call from `main` asks.
fn check_row<W>(rt: HostRuntime, threads: &W, line: &str) -> io::Result<()>
where
    W: Net<Listener = TcpListener, Stream = TcpStream>
        + Files
        + AllocGlobal
        + Clock
        + Eprint
        + RandomSource
        + Threads
        + Wait
        + Sync
        + Copy
        + Drop
        + Send
        + 'static,
    <W as Files>::File: Send,
    <W as Files>::Dir: Send,
{
    let (row, wanted) = line.split_once(" => ").unwrap_or((line, ""));
    let said = said(rt, threads, row)?;
    if said.as_str() != wanted {
        println!(rt; "{row} => {said}")?;
    }
    Ok(())
}

fn said<W: Outside + Files + Threads + Sync + Send + 'static>(
    rt: HostRuntime,
    threads: &W,
    row: &str,
) -> io::Result<String>
where
    <W as Files>::File: Send,
    <W as Files>::Dir: Send,
{
    let (word, rest) = row.split_once(' ').unwrap_or((row, ""));
    match word {
        "door" => Ok(doors::door_shown(threads, rt.alloc(), rest)?),
        "together" => Ok(together::together_shown(threads, rt.alloc(), rest)?),
        "worker" => Ok(working::worker_shown(threads, rt.alloc(), rest)?),
        "system" => system_world::system_shown(*threads, rest),
        "journal" => journals::journal_shown(*threads, rest),
        _ => Ok(memory_world::memory_shown(rt.alloc(), word, rest)?),
    }
}
