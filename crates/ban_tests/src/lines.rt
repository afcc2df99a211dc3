// The words that a row gives for a ban.
use cli_words::{Words, split};
use std::alloc::{AllocError, Global};
use units::{Text, quoted};

/// The words of quoted texts with bars between, each so many times as the number before it says.
pub fn words_of(alloc: Global, row: &str) -> Result<Words, AllocError> {
    match split(alloc, &line_of(alloc, row)?) {
        Ok(words) => Ok(words),
        Err(_) => Err(AllocError),
    }
}

fn line_of(alloc: Global, row: &str) -> Result<Text, AllocError> {
    let mut line = Vec::new(alloc);
    for part in row.split('|') {
        push_part(alloc, &mut line, part)?;
    }
    Text::from_vec(line)
}

fn push_part(alloc: Global, line: &mut Vec<u8>, part: &str) -> Result<(), AllocError> {
    let (number, _) = part.split_once('"').unwrap_or(("", ""));
    let times = number.parse::<u32>().unwrap_or(1);
    match quoted(alloc, part.as_bytes(), number.len())? {
        Some((piece, _)) => push_times(line, piece.bytes(), times),
        None => Ok(()),
    }
}

fn push_times(line: &mut Vec<u8>, piece: &[u8], times: u32) -> Result<(), AllocError> {
    for _ in 0..times {
        line.extend_from_slice(piece)?;
    }
    Ok(())
}
