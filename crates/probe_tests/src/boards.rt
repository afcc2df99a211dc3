// Boards and what is told of them.
use crate::windows::three_of;
use probe_window::{Board, WindowError};
use std::alloc::{AllocError, Global};
use units::Text;
use vcl_attributes::Probe;

/// What a board of these probes, `NAME=WINDOW/THRESHOLD/INITIAL` with commas between, tells of each step behind them: a backend's
/// result, a state that it is set to, its health, or that it begins again with other probes.
pub fn told_shown(alloc: Global, row: &str) -> Result<String, AllocError> {
    let (probes, steps) = row.split_once('|').unwrap_or((row, ""));
    let probes = probes_of(alloc, probes)?;
    let mut shown = String::new(alloc);
    match Board::of(alloc, probes.as_slice()) {
        Ok(mut board) => push_steps(alloc, &mut shown, &mut board, steps)?,
        Err(WindowError::Range) => shown.push_str("out of range")?,
        Err(WindowError::NoMemory) => return Err(AllocError),
    }
    Ok(shown)
}

fn push_steps(
    alloc: Global,
    shown: &mut String,
    board: &mut Board,
    steps: &str,
) -> Result<(), AllocError> {
    for step in steps.split('|') {
        let (word, rest) = step.split_once(' ').unwrap_or((step, ""));
        if word == "again" {
            let probes = probes_of(alloc, rest)?;
            push_begun(shown, board.begin_again(alloc, probes.as_slice()))?;
        } else {
            push_told(shown, told(board, word, rest.as_bytes()))?;
        }
    }
    Ok(())
}

fn push_begun(shown: &mut String, begun: Result<(), WindowError>) -> Result<(), AllocError> {
    match begun {
        Ok(()) => shown.push('+'),
        Err(WindowError::Range) => shown.push('r'),
        Err(WindowError::NoMemory) => Err(AllocError),
    }
}

fn push_told(shown: &mut String, told: Option<bool>) -> Result<(), AllocError> {
    shown.push_str(match told {
        Some(true) => "y",
        Some(false) => "n",
        None => "-",
    })
}

fn told(board: &mut Board, word: &str, backend: &[u8]) -> Option<bool> {
    match word {
        "good" => board.result(backend, true),
        "bad" => board.result(backend, false),
        "health" => board.health(backend),
        _ => board.force(backend, word.as_bytes()),
    }
}

fn probes_of(alloc: Global, row: &str) -> Result<Vec<Probe>, AllocError> {
    let mut probes = Vec::new(alloc);
    for word in row.split(',') {
        probes.push(probe_of(alloc, word)?)?;
    }
    Ok(probes)
}

fn probe_of(alloc: Global, word: &str) -> Result<Probe, AllocError> {
    let (name, numbers) = word.split_once('=').unwrap_or((word, ""));
    let (window, threshold, initial) = three_of(numbers);
    Ok(Probe {
        backend: Text::of(alloc, name.as_bytes())?,
        host: Text::of(alloc, b"127.0.0.1")?,
        port: Text::of(alloc, b"80")?,
        url: Text::of(alloc, b"/")?,
        window,
        threshold,
        initial,
        interval: 5000,
        timeout: 2000,
        expected: 200,
    })
}
