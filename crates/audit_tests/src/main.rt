//! Rows for the audit of journals: a line of the input that begins with `| ` is a line of a journal, one that begins with `|- ` is the
//! same without its LF, and `=> WANTED` ends the journal, of which that is to be written; `=: WORDS` behind that has what is told to
//! have been expected. The program prints what is told otherwise, of the whole or in pieces, and how many journals there were.
#![tactic(auto)]

use history_audit::HistoryAuditor;
use journal_audit::Finding;
use std::alloc::{AllocError, Global};
use std::io;
use varn_audit::{run_audit, words_of};
use wire::{FailingSink, FailingSource};

fn main(rt: HostRuntime) -> io::Result<()> {
    let mut count: u64 = 0;
    let mut journal: Vec<u8> = Vec::new(rt.alloc());
    let mut words = String::new(rt.alloc());
    for line in rt.lines(rt.alloc()) {
        let line = line?;
        if let Some(text) = line.strip_prefix("| ") {
            journal.extend_from_slice(text.as_bytes())?;
            journal.push(b'\n')?;
        } else if let Some(text) = line.strip_prefix("|- ") {
            journal.extend_from_slice(text.as_bytes())?;
        } else if let Some(wanted) = line.strip_prefix("=> ") {
            count = count.saturating_add(1);
            let in_pieces = told_in_pieces(rt.alloc(), journal.as_slice())?;
            if in_pieces.as_str() != wanted {
                println!(rt; "journal {count} in pieces => {in_pieces}")?;
            }
            let told = told(rt.alloc(), journal)?;
            if told.line.as_str() != wanted {
                let line = told.line.as_str();
                println!(rt; "journal {count} => {line}")?;
            }
            words = told.words;
            journal = Vec::new(rt.alloc());
        } else if let Some(wanted) = line.strip_prefix("=: ") {
            if words.as_str() != wanted {
                println!(rt; "journal {count} =: {words}")?;
            }
        }
    }
    println!(rt; "{count} journals")
}

/// What is told of a journal: the line that is written, or how the audit ends without one, and what was expected.
#[derive(Drop)]
struct Finished {
    line: String,
    words: String,
}

// Of a journal that is fed seven bytes at a time.
fn told_in_pieces(alloc: Global, journal: &[u8]) -> Result<String, AllocError> {
    let mut auditor = HistoryAuditor::new(alloc);
    for piece in journal.chunks(7) {
        auditor = auditor.feed(alloc, piece)?;
    }
    match auditor.finish() {
        Finding::Legal { entries, .. } => format!(in alloc; "legal {entries}"),
        Finding::Bad { line, kind, .. } => {
            let number = kind.number();
            format!(in alloc; "line {line} kind {number}")
        }
    }
}

fn told(alloc: Global, journal: Vec<u8>) -> Result<Finished, AllocError> {
    let mut source = FailingSource::new(journal, Vec::new(alloc));
    let mut sink = FailingSink::new(alloc, Vec::new(alloc), 3);
    let audited = run_audit(alloc, &mut source, &mut sink);
    let written = String::from_utf8_lossy(alloc, sink.bytes())?;
    let line = match written.lines().next() {
        Some(line) => String::from_str(alloc, line)?,
        None => format!(in alloc; "{:?}", audited.status)?,
    };
    let words = match audited.note {
        Some(note) => words_of(alloc, note.expected)?,
        None => String::new(alloc),
    };
    Ok(Finished { line, words })
}
