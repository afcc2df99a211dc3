// The fields of a response that was confirmed.
use crate::fields::{fields_of, fields_shown};
use freshness::merge;
use http_heads::{Field, Fields};
use std::alloc::{AllocError, Global};
use units::Text;

/// The names and values of both messages' fields as one.
pub fn merged_shown(alloc: Global, row: &str) -> Result<String, AllocError> {
    let (old, new) = row.split_once('|').unwrap_or((row, ""));
    let (old, new) = (fields_of(alloc, old)?, fields_of(alloc, new)?);
    match merge(alloc, &old, &new) {
        Err(error) => format!(in alloc; "{error:?}"),
        Ok(merged) => fields_shown(alloc, &merged),
    }
}

/// How many fields come of so many of each name.
pub fn many_shown(alloc: Global, row: &str) -> Result<String, AllocError> {
    let (old, new) = row.split_once('|').unwrap_or((row, ""));
    match merge(alloc, &many(alloc, old)?, &many(alloc, new)?) {
        Err(error) => format!(in alloc; "{error:?}"),
        Ok(merged) => {
            let count = merged.len();
            format!(in alloc; "{count}")
        }
    }
}

// Fields of a name, behind their count.
fn many(alloc: Global, words: &str) -> Result<Fields, AllocError> {
    let (count, name) = words.split_once(' ').unwrap_or((words, ""));
    let mut fields = Vec::new(alloc);
    for _ in 0..count.parse::<u32>().unwrap_or(1) {
        fields.push(Field {
            name: Text::of(alloc, name.as_bytes())?,
            value: Text::of(alloc, b"1")?,
        })?;
    }
    Ok(Fields::from_vec(fields))
}
