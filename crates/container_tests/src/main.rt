//! Rows for the containers of the lazy cache: each line of the input names a container and has steps, with `; ` between
//! them, and behind ` => ` what is to be said of each (`xkeys.rt`, `room.rt`, `heads.rt`, `bans.rt`). The program prints the
//! rows that go otherwise, and how many rows there are.
#![tactic(auto)]

mod ban_lines;
mod bans;
mod heads;
mod markers;
mod room;
mod steps;
mod words;
mod xkeys;

use ban_list::BanList;
use object_heads::Heads;
use room_lru::RoomLru;
use std::alloc::AllocError;
use std::io;
use xkey_index::XkeyIndex;

fn main(rt: HostRuntime) -> io::Result<()> {
    let mut count: u64 = 0;
    for line in rt.lines(rt.alloc()) {
        let line = line?;
        if !line.starts_with('#') {
            count = count.saturating_add(1);
            let (row, wanted) = line.split_once(" => ").unwrap_or((line.as_str(), ""));
            let said = said(&rt, row)?;
            if said.as_str() != wanted {
                println!(rt; "{row} => {said}")?;
            }
        }
    }
    println!(rt; "{count} rows")
}

fn said(rt: &HostRuntime, row: &str) -> Result<String, AllocError> {
    let alloc = rt.alloc();
    let (container, steps) = row.split_once(' ').unwrap_or((row, ""));
    match container {
        "bans" => steps::said(rt, BanList::new(alloc)?, steps),
        "xkeys" => steps::said(rt, XkeyIndex::new(alloc), steps),
        "room" => steps::said(rt, RoomLru::new(alloc), steps),
        "heads" => steps::said(rt, Heads::<u64>::new(alloc), steps),
        _ => String::from_str(alloc, "no such container"),
    }
}
