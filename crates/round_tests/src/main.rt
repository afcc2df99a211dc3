//! Rows for the rounds of clients and the fetches of backends: `client_graph`, `fetch_graph`, `backend_request` and `round_task`.
//! The first word of a row names one of them; behind ` => ` stands what is to be said of it. The program prints the rows that go
//! otherwise, and how many rows there are.
#![tactic(auto)]

mod backends;
mod client_answers;
mod client_hits;
mod client_names;
mod client_places;
mod client_words;
mod fetch_names;
mod fetches;
mod givens;
mod heads;
mod round_names;
mod rounds;

use std::alloc::{AllocError, Global};
use std::io;

fn main(rt: HostRuntime) -> io::Result<()> {
    let mut count: u64 = 0;
    for line in rt.lines(rt.alloc()) {
        let line = line?;
        if !line.starts_with('#') {
            count = count.saturating_add(1);
            let (row, wanted) = line.split_once(" => ").unwrap_or((line.as_str(), ""));
            let said = said(rt.alloc(), row)?;
            if said.as_str() != wanted {
                println!(rt; "{row} => {said}")?;
            }
        }
    }
    println!(rt; "{count} rows")
}

fn said(alloc: Global, row: &str) -> Result<String, AllocError> {
    let (word, rest) = row.split_once(' ').unwrap_or((row, ""));
    match word {
        "backend" => backends::request_shown(alloc, rest),
        "client" => client_shown(alloc, rest),
        "fetch" => fetches::fetch_shown(alloc, rest),
        "round" => rounds::round_shown(alloc, rest),
        _ => format!(in alloc; "no such row"),
    }
}

fn client_shown(alloc: Global, row: &str) -> Result<String, AllocError> {
    let (word, rest) = row.split_once(' ').unwrap_or((row, ""));
    match word {
        "lead" => client_words::lead_shown(alloc, rest),
        "lookup" => client_answers::lookup_shown(alloc, rest),
        "give" => client_answers::given_shown(alloc, rest),
        "send" => client_answers::sent_shown(alloc),
        "hit" => client_hits::hit_shown(alloc, rest),
        _ => backends::forwarded_shown(alloc, rest),
    }
}
