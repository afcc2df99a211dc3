//! Rows for bodies and fields: `http_bodies`, lists and additions of `http_heads`, and merged fields of `freshness`. Each line of
//! the input has a call's name, or how a body is framed, with what it gets and, behind ` => `, what is to be said of it. The program
//! prints the rows that go otherwise, and how many rows there are.
#![tactic(auto)]

mod bodies;
mod fields;
mod framing;
mod lists;
mod merging;
mod texts;

use std::alloc::{AllocError, Global};
use std::io;

fn main(rt: HostRuntime) -> io::Result<()> {
    let mut count: u64 = 0;
    for line in rt.lines(rt.alloc()) {
        let line = line?;
        if !line.starts_with('#') {
            count = count.saturating_add(1);
            let (row, wanted) = line.split_once(" => ").unwrap_or((line.as_str(), ""));
            let said = said(rt.alloc(), row)?;
            if said.as_str() != wanted {
                println!(rt; "{row} => {said}")?;
            }
        }
    }
    println!(rt; "{count} rows")
}

fn said(alloc: Global, row: &str) -> Result<String, AllocError> {
    let (word, rest) = row.split_once(' ').unwrap_or((row, ""));
    match word {
        "is_listed" => lists::is_listed_shown(alloc, rest),
        "listed" => lists::listed_shown(alloc, rest),
        "split" => lists::split_shown(alloc, rest),
        "added" => fields::added_shown(alloc, rest),
        "unframed" => framing::unframed_shown(alloc, rest),
        "with_length" => framing::lengthened_shown(alloc, rest),
        "fields" => framing::frames_shown(alloc, rest),
        "status" => framing::kinds_shown(alloc, rest),
        "merged" => merging::merged_shown(alloc, rest),
        "many" => merging::many_shown(alloc, rest),
        _ => bodies::body_shown(alloc, word, rest),
    }
}
