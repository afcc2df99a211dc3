//! Rows for messages: heads of `http_heads`, `freshness`, `seen_request` and `delivery`, and lines of `access_log`. Each line of the
//! input has a call's name with what it gets and, behind ` => `, what is to be said of it. The program prints the rows that go
//! otherwise, and how many rows there are.
#![tactic(auto)]

mod changes;
mod delivering;
mod heads;
mod logging;
mod seeing;
mod serving;

use std::alloc::{AllocError, Global};
use std::io;

fn main(rt: HostRuntime) -> io::Result<()> {
    let mut count: u64 = 0;
    for line in rt.lines(rt.alloc()) {
        let line = line?;
        if !line.starts_with('#') {
            count = count.saturating_add(1);
            let (row, wanted) = line.split_once(" => ").unwrap_or((line.as_str(), ""));
            let said = said(rt.alloc(), row)?;
            if said.as_str() != wanted {
                println!(rt; "{row} => {said}")?;
            }
        }
    }
    println!(rt; "{count} rows")
}

fn said(alloc: Global, row: &str) -> Result<String, AllocError> {
    let (word, rest) = row.split_once(' ').unwrap_or((row, ""));
    match word {
        "request" => heads::request_shown(alloc, rest),
        "response" => heads::response_shown(alloc, rest),
        "asked" | "answered" => changes::changes_shown(alloc, word, rest),
        "timing" => serving::timing_shown(alloc, rest),
        "unchanged" => serving::unchanged_shown(alloc, rest),
        "kept" => serving::kept_shown(alloc, rest),
        "see" => seeing::seen_shown(alloc, rest),
        "one_site" => seeing::one_site_shown(alloc, rest),
        "delivered" => delivering::delivered_shown(alloc, false, rest),
        "passed" => delivering::delivered_shown(alloc, true, rest),
        "synthetic" => delivering::synthetic_shown(alloc, rest),
        "failure_page" => delivering::failure_page_shown(alloc),
        "age" => delivering::age_shown(alloc, rest),
        "reason" => delivering::reason_shown(alloc, rest),
        "logged" => logging::logged_shown(alloc, rest),
        _ => format!(in alloc; "no such row"),
    }
}
