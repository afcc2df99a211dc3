// Numbers, quoted texts, escapes and durations.
use crate::texts::bytes_of;
use std::alloc::{AllocError, Global};
use units::{
    Text, end_of_quoted, one_duration, one_number, one_quoted, push_number, quote,
    quote_reads_back, quoted, read_escape, read_millis, read_number, value_of_digits, write_number,
};

/// What the reading of this name says of the bytes.
pub fn reading_shown(alloc: Global, word: &str, row: &str) -> Result<String, AllocError> {
    let bytes = bytes_of(alloc, row)?;
    let bytes = bytes.as_slice();
    match word {
        "number" => number_shown(alloc, bytes),
        "digits" => {
            let value = value_of_digits(bytes);
            format!(in alloc; "{value:?}")
        }
        "quote" => {
            quote_reads_back(bytes);
            let written = quote(alloc, bytes)?;
            format!(in alloc; "{written:?}")
        }
        "escape" => {
            let read = read_escape(bytes);
            format!(in alloc; "{read:?}")
        }
        "millis" => {
            one_duration(bytes);
            let span = read_millis(bytes);
            format!(in alloc; "{span:?}")
        }
        _ => format!(in alloc; "no such reading"),
    }
}

// The number that the bytes are, and how it is written.
fn number_shown(alloc: Global, bytes: &[u8]) -> Result<String, AllocError> {
    one_number(bytes);
    let Some(number) = read_number(bytes) else {
        return format!(in alloc; "None");
    };
    let written = write_number(alloc, number)?;
    format!(in alloc; "{number} {written:?}")
}

/// The numbers, written one behind the other.
pub fn pushed_shown(alloc: Global, row: &str) -> Result<String, AllocError> {
    let mut out = Vec::new(alloc);
    for word in row.split(' ') {
        push_number(&mut out, alloc, word.parse::<u64>().unwrap_or(1))?;
    }
    let written = Text::from_vec(out)?;
    format!(in alloc; "{written:?}")
}

/// What is quoted behind so many bytes, and where it ends.
pub fn quoted_shown(alloc: Global, row: &str) -> Result<String, AllocError> {
    let (from, row) = row.split_once(' ').unwrap_or((row, ""));
    let from = from.parse::<usize>().unwrap_or(1);
    let bytes = bytes_of(alloc, row)?;
    one_quoted(bytes.as_slice());
    let found = quoted(alloc, bytes.as_slice(), from)?;
    let end = end_of_quoted(bytes.as_slice(), from);
    format!(in alloc; "{found:?} {end:?}")
}
