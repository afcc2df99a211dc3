// Bytes and numbers as rows write them.
use std::alloc::{AllocError, Global};
use units::{Text, quoted};
use wire::Failed;

/// Quoted texts with bars between, each so many times as the number before it says.
pub fn bytes_of(alloc: Global, row: &str) -> Result<Vec<u8>, AllocError> {
    let mut bytes = Vec::new(alloc);
    for part in row.split('|') {
        push_part(&mut bytes, alloc, part)?;
    }
    Ok(bytes)
}

fn push_part(bytes: &mut Vec<u8>, alloc: Global, part: &str) -> Result<(), AllocError> {
    let (times, _) = part.split_once('"').unwrap_or(("", ""));
    if let Some((piece, _)) = quoted(alloc, part.as_bytes(), times.len())? {
        for _ in 0..times.parse::<u32>().unwrap_or(1) {
            bytes.extend_from_slice(piece.bytes())?;
        }
    }
    Ok(())
}

/// Numbers with commas between; `-` is none.
pub fn numbers_of(alloc: Global, row: &str) -> Result<Vec<u64>, AllocError> {
    let mut numbers = Vec::new(alloc);
    for word in row.split(',') {
        if let Ok(number) = word.parse::<u64>() {
            numbers.push(number)?;
        }
    }
    Ok(numbers)
}

/// The first word of a row, and what is behind it.
pub fn first_word(row: &str) -> (&str, &str) {
    row.split_once(' ').unwrap_or((row, ""))
}

/// The bytes as they print.
pub fn shown(alloc: Global, bytes: &[u8]) -> Result<String, AllocError> {
    let text = Text::of(alloc, bytes)?;
    format!(in alloc; "{text:?}")
}

/// How many bytes a call moved, behind what stands there.
pub fn push_answer(out: &mut String, answer: Result<usize, Failed>) -> Result<(), AllocError> {
    match answer {
        Ok(count) => write!(out, "{count} "),
        Err(_) => out.push_str("Failed "),
    }
}
