// One run, and what is told of it.
use crate::outside::{sink_of, source_of};
use cache_law::Entry;
use command_line::{LoadOptions, read_load};
use lazy_core::LazyCore;
use std::alloc::{AllocError, Global};
use units::Text;
use varn_program::{Job, Outcome, Status, do_with_std, faulty_word, run};
use wire::{FailingSink, FailingSource};

// The longest transcript that is told whole.
const SHORT: usize = 5_000;

/// The status, the noted line and its kind (0 and 0 for none), and what was written; behind `@@` also the caller and the moment of
/// each entry of the history, and the number for each `lurk`, if there is one. The head's second word says what fails, the others are those of the run.
pub fn run_shown(alloc: Global, head: &str, session: &[u8]) -> Result<String, AllocError> {
    let (mark, line) = head.split_once(' ').unwrap_or((head, ""));
    let (plan, line) = line.split_once(' ').unwrap_or((line, ""));
    let words = words_of(alloc, line)?;
    let mut source = source_of(alloc, plan, session)?;
    let mut sink = sink_of(alloc, plan)?;
    let outcome = outcome_of(alloc, words.as_slice(), &mut source, &mut sink);
    let with_history = mark == "@@";
    outcome_shown(
        alloc,
        &outcome,
        words.as_slice(),
        sink.bytes(),
        with_history,
    )
}

// The load that the words ask for, if they do.
fn load_asked(words: &[Text]) -> Option<LoadOptions> {
    match words {
        [command, options @ ..] if command.bytes() == b"load".as_slice() => {
            read_load(options).ok()
        }
        _ => None,
    }
}

fn outcome_of(
    alloc: Global,
    words: &[Text],
    source: &mut FailingSource,
    sink: &mut FailingSink,
) -> Outcome {
    match load_asked(words) {
        Some(LoadOptions { seed, steps }) => {
            let job = Job::Load { seed, steps };
            do_with_std::<LazyCore, FailingSource, FailingSink>(alloc, &job, source, sink)
        }
        None => run::<LazyCore, FailingSource, FailingSink>(alloc, words, source, sink),
    }
}

fn outcome_shown(
    alloc: Global,
    outcome: &Outcome,
    words: &[Text],
    written: &[u8],
    with_history: bool,
) -> Result<String, AllocError> {
    let mut out = ending_shown(alloc, outcome, words)?;
    push_written(&mut out, written)?;
    if with_history {
        push_history(&mut out, outcome.history.as_slice())?;
        push_swept(&mut out, outcome.swept.as_slice())?;
    }
    Ok(out)
}

fn words_of(alloc: Global, line: &str) -> Result<Vec<Text>, AllocError> {
    let mut words = Vec::new(alloc);
    for word in line.split(' ').filter(|word| !word.is_empty()) {
        words.push(Text::of(alloc, word.as_bytes())?)?;
    }
    Ok(words)
}

fn ending_shown(alloc: Global, outcome: &Outcome, words: &[Text]) -> Result<String, AllocError> {
    let status = outcome.status.code();
    let (line, kind) = outcome.note.map_or((0, 0), |note| (note.line, note.kind));
    if outcome.status == Status::Words {
        let faulty = faulty_word(words).and_then(|word| str::from_utf8(word.bytes()).ok());
        format!(in alloc; "{status} {line} {kind} at {faulty:?}\n")
    } else {
        format!(in alloc; "{status} {line} {kind}\n")
    }
}

fn push_written(out: &mut String, written: &[u8]) -> Result<(), AllocError> {
    if written.len() > SHORT {
        let lines = written.iter().filter(|byte| **byte == b'\n').count();
        return write!(out, "{} bytes, {lines} lines\n", written.len());
    }
    match str::from_utf8(written) {
        Ok(text) => out.push_str(text),
        Err(_) => out.push_str("no text\n"),
    }
}

fn push_history(out: &mut String, history: &[Entry]) -> Result<(), AllocError> {
    out.push_str("history")?;
    for entry in history {
        write!(out, " {}@{}", entry.caller, entry.moment)?;
    }
    out.push_str("\n")
}

fn push_swept(out: &mut String, swept: &[u32]) -> Result<(), AllocError> {
    if swept.is_empty() {
        return Ok(());
    }
    out.push_str("swept")?;
    for count in swept {
        write!(out, " {count}")?;
    }
    out.push_str("\n")
}
