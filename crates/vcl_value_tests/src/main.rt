//! Rows for what a VCL text speaks of: values, patterns, functions of `std`, tables of names, and where names and calls lead. A row's
//! first word names the call, and behind ` => ` stands what is to be said of the rest. The program prints the rows that go
//! otherwise, and how many rows there are.
#![tactic(auto)]

mod cookies;
mod functions;
mod names;
mod patterns;
mod samples;
mod symbols;
mod values;

use std::alloc::{AllocError, Global};
use std::io;

fn main(rt: HostRuntime) -> io::Result<()> {
    let mut count: u64 = 0;
    for line in rt.lines(rt.alloc()) {
        let line = line?;
        if !line.starts_with('#') {
            count = count.saturating_add(1);
            let (row, wanted) = line.split_once(" => ").unwrap_or((line.as_str(), ""));
            let said = said(rt.alloc(), row)?;
            if said.as_str() != wanted {
                println!(rt; "{row} => {said}")?;
            }
        }
    }
    println!(rt; "{count} rows")
}

fn said(alloc: Global, row: &str) -> Result<String, AllocError> {
    let (word, rest) = row.split_once(' ').unwrap_or((row, ""));
    match word {
        "value" => values::value_shown(alloc, rest),
        "compare" => values::comparison_shown(alloc, rest),
        "sum" | "difference" => values::sum_shown(alloc, word, rest),
        "pattern" => patterns::pattern_shown(alloc, rest),
        "first" | "all" => patterns::replaced_shown(alloc, word, rest),
        "tolower" | "toupper" | "strlen" => functions::answer_shown(alloc, word, rest),
        "integer" => functions::integer_shown(alloc, rest),
        "jar" => cookies::jar_shown(alloc, rest),
        "copied" => functions::copies_shown(alloc, rest),
        "twice" => functions::table_shown(alloc),
        "find" => symbols::place_shown(alloc, rest),
        "reached" => symbols::reached_shown(alloc, rest),
        "circle" => symbols::circle_shown(alloc, rest),
        _ => names::name_shown(alloc, word, rest),
    }
}
