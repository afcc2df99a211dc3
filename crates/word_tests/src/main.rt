//! Rows for the libraries of words: `units`, `acl_match`, `directors`, `cli_words`, `session_text`, `command_line` and
//! `diagnostics`. Each line of the input has a call's name with what it gets and, behind ` => `, what is to be said of it, in
//! which `\n` stands for a line's end. The program prints the rows that go otherwise, and how many rows there are.
#![tactic(auto)]

mod addresses;
mod choosing;
mod console;
mod escapes;
mod options;
mod readings;
mod sessions;
mod telling;
mod texts;

use std::alloc::{AllocError, Global};
use std::io;

fn main(rt: HostRuntime) -> io::Result<()> {
    let mut count: u64 = 0;
    for line in rt.lines(rt.alloc()) {
        let line = line?;
        if !line.starts_with('#') {
            count = count.saturating_add(1);
            let (row, wanted) = line.split_once(" => ").unwrap_or((line.as_str(), ""));
            let said = said(rt.alloc(), row)?;
            if said.as_str() != wanted {
                println!(rt; "{row} => {said}")?;
            }
        }
    }
    println!(rt; "{count} rows")
}

fn said(alloc: Global, row: &str) -> Result<String, AllocError> {
    let (word, rest) = row.split_once(' ').unwrap_or((row, ""));
    match word {
        "text" => texts::text_shown(alloc, rest),
        "seen" => texts::seen_shown(alloc, rest),
        "shared" => texts::shared_shown(alloc, rest),
        "order" | "fold" => texts::pair_shown(alloc, word, rest),
        "pushed" => readings::pushed_shown(alloc, rest),
        "quoted" => readings::quoted_shown(alloc, rest),
        "acl" => addresses::list_shown(alloc, rest),
        "address" => addresses::address_shown(alloc, rest),
        "choose" => choosing::choice_shown(alloc, rest),
        "key" => choosing::key_shown(alloc, rest),
        "words" => console::words_shown(alloc, rest),
        "word_count" => console::count_shown(alloc, rest),
        "written" => console::written_shown(alloc, rest),
        "line" => sessions::line_shown(alloc, rest),
        "session" => sessions::session_shown(alloc, rest),
        "meaning" => sessions::meaning_shown(alloc, rest),
        "generated" => sessions::generated_shown(alloc, rest),
        "options" => options::options_shown(alloc, rest),
        "load_options" => options::load_shown(alloc, rest),
        "help" | "serve" | "load" | "replay" | "replay-" | "vcl" | "session_fault" => {
            telling::told(alloc, word, rest)?.replace(alloc, '\n', "\\n")
        }
        _ => readings::reading_shown(alloc, word, rest),
    }
}
