//! Settings in a row of a crate of tests, as NAME=VALUE with blanks between, and bytes in what is said of a row. A library for tests
//! alone.
#![tactic(auto)]

use std::alloc::{AllocError, Global};

/// The value of the first setting of this name. None where the row hasn't that.
pub fn value<'a>(row: &'a str, name: &str) -> Option<&'a str> {
    for word in row.split(' ') {
        if let Some((found, value)) = word.split_once('=') {
            if found == name {
                return Some(value);
            }
        }
    }
    None
}

/// The value of the setting of this name. Nothing where the row hasn't that.
pub fn setting<'a>(row: &'a str, name: &str) -> &'a str {
    value(row, name).unwrap_or("")
}

/// Whether the word stands in the row by itself.
pub fn has(row: &str, wanted: &str) -> bool {
    for word in row.split(' ') {
        if word == wanted {
            return true;
        }
    }
    false
}

/// The setting's number. None where the row hasn't one.
pub fn count(row: &str, name: &str) -> Option<u64> {
    value(row, name)?.parse::<u64>().ok()
}

/// The setting's number, which may be below 0. None where the row hasn't one.
pub fn signed(row: &str, name: &str) -> Option<i64> {
    value(row, name)?.parse::<i64>().ok()
}

/// The setting's number, or the usual one.
pub fn number(row: &str, name: &str, usual: u64) -> u64 {
    count(row, name).unwrap_or(usual)
}

/// The numbers with commas between.
pub fn numbers_of(alloc: Global, list: &str) -> Result<Vec<u64>, AllocError> {
    let mut numbers = Vec::new(alloc);
    for word in list.split(',') {
        if let Ok(number) = word.parse::<u64>() {
            numbers.push(number)?;
        }
    }
    Ok(numbers)
}

/// The setting's numbers.
pub fn numbers(alloc: Global, row: &str, name: &str) -> Result<Vec<u64>, AllocError> {
    numbers_of(alloc, setting(row, name))
}

/// Puts the bytes behind what is said, as characters of Latin-1.
pub fn push_bytes(said: &mut String, bytes: &[u8]) -> Result<(), AllocError> {
    for byte in bytes {
        said.push(char::from(*byte))?;
    }
    Ok(())
}
