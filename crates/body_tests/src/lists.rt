// The elements of lists.
use crate::fields::{fields_of, spaced};
use http_heads::{Separators, is_listed, listed, split_list};
use std::alloc::{AllocError, Global};
use units::Text;

/// Whether the fields of a name list a word.
pub fn is_listed_shown(alloc: Global, row: &str) -> Result<String, AllocError> {
    let (asked, words) = row.split_once('|').unwrap_or((row, ""));
    let (name, word) = asked.split_once(' ').unwrap_or((asked, ""));
    let fields = fields_of(alloc, words)?;
    let is_listed = is_listed(&fields, name.as_bytes(), word.as_bytes());
    format!(in alloc; "{is_listed}")
}

fn separators_of(name: &str) -> Separators {
    if name == "commas" {
        Separators::Commas
    } else {
        Separators::CommasAndBlanks
    }
}

/// The elements that the fields of a name list, between commas or between commas and blanks.
pub fn listed_shown(alloc: Global, row: &str) -> Result<String, AllocError> {
    let (asked, words) = row.split_once('|').unwrap_or((row, ""));
    let (separators, name) = asked.split_once(' ').unwrap_or((asked, ""));
    let fields = fields_of(alloc, words)?;
    let list = listed(alloc, &fields, name.as_bytes(), separators_of(separators))?;
    elements_shown(alloc, list.as_slice())
}

/// The elements of a text.
pub fn split_shown(alloc: Global, row: &str) -> Result<String, AllocError> {
    let (separators, text) = row.split_once(' ').unwrap_or((row, ""));
    let text = spaced(alloc, text)?;
    let list = split_list(alloc, text.bytes(), separators_of(separators))?;
    elements_shown(alloc, list.as_slice())
}

fn elements_shown(alloc: Global, elements: &[Text]) -> Result<String, AllocError> {
    let mut out = String::new(alloc);
    for element in elements {
        write!(out, "{element:?};")?;
    }
    Ok(out)
}
