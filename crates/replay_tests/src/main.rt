//! Rows for `cli_console` and `varn_program`. First stand rows of one line: its first word names what is read or answered, and behind
//! ` => ` stands what is to be said of it (`commands.rt`, `replies.rt`). Then come whole runs over a source and a sink in memory
//! (`stored.rt`). The program prints the rows that go otherwise, and how many rows there are.
#![tactic(auto)]

mod calls;
mod commands;
mod listings;
mod outside;
mod replies;
mod runs;
mod stored;

use std::alloc::{AllocError, Global};
use std::io;
use stored::Stored;
use vmod_host::VmodTable;

fn main(rt: HostRuntime) -> io::Result<()> {
    match VmodTable::of(rt.alloc(), Vec::new(rt.alloc())) {
        Ok(vmods) => check_rows(&rt, &vmods),
        Err(_) => println!(rt; "no table of stored functions"),
    }
}

fn check_rows(rt: &HostRuntime, vmods: &VmodTable) -> io::Result<()> {
    let mut count: u64 = 0;
    let mut stored = Stored::new(rt.alloc());
    for line in rt.lines(rt.alloc()) {
        let line = line?;
        let begun = take_line(rt, vmods, &mut stored, line.as_str())?;
        count = count.saturating_add(begun);
    }
    check_run(rt, &stored)?;
    println!(rt; "{count} rows")
}

// How many rows the line begins.
fn take_line(
    rt: &HostRuntime,
    vmods: &VmodTable,
    stored: &mut Stored,
    line: &str,
) -> io::Result<u64> {
    if line.starts_with('@') {
        check_run(rt, stored)?;
        stored.begin(line)?;
        return Ok(1);
    }
    if stored.is_headed() {
        stored.push_line(rt.alloc(), line)?;
        return Ok(0);
    }
    if line.starts_with('#') {
        return Ok(0);
    }
    check_row(rt, line, vmods)?;
    Ok(1)
}

fn check_row(rt: &HostRuntime, line: &str, vmods: &VmodTable) -> io::Result<()> {
    let (row, wanted) = line.split_once(" => ").unwrap_or((line, ""));
    let said = said(rt.alloc(), row, vmods)?;
    if said.as_str() != wanted {
        println!(rt; "{row} => {said}")?;
    }
    Ok(())
}

fn check_run(rt: &HostRuntime, stored: &Stored) -> io::Result<()> {
    if !stored.is_headed() {
        return Ok(());
    }
    let head = stored.head.as_str();
    let shown = runs::run_shown(rt.alloc(), head, stored.session.as_slice())?;
    if shown.as_str() != stored.wanted.as_str() {
        println!(rt; "{head} => {shown}")?;
    }
    Ok(())
}

fn said(alloc: Global, row: &str, vmods: &VmodTable) -> Result<String, AllocError> {
    let (word, rest) = row.split_once(' ').unwrap_or((row, ""));
    match word {
        "line" => commands::line_shown(alloc, rest, vmods),
        "file" => commands::file_shown(alloc, rest, vmods),
        "reply" => replies::reply_shown(alloc, rest),
        _ => format!(in alloc; "no such row"),
    }
}
