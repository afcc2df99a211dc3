// Patterns that are read, and what they replace.
use crate::samples::{text_of, text_shown};
use std::alloc::{AllocError, Global};
use units::Text;
use vcl_values::Pattern;

/// How a text is read as a pattern.
pub fn pattern_shown(alloc: Global, row: &str) -> Result<String, AllocError> {
    match Pattern::of(alloc, &text_of(alloc, row)?) {
        Ok(_) => format!(in alloc; "read"),
        Err(error) => format!(in alloc; "{error:?}"),
    }
}

/// The text with the first match, or all, replaced, and whether there is a match.
pub fn replaced_shown(alloc: Global, word: &str, row: &str) -> Result<String, AllocError> {
    let (pattern, rest) = row.split_once('|').unwrap_or((row, ""));
    let (searched, by) = rest.split_once('|').unwrap_or((rest, ""));
    let Ok(pattern) = Pattern::of(alloc, &text_of(alloc, pattern)?) else {
        return format!(in alloc; "no pattern");
    };
    let searched = text_of(alloc, searched)?;
    let by = text_of(alloc, by)?;
    outcome_shown(alloc, &pattern, &searched, &by, word == "all")
}

fn outcome_shown(
    alloc: Global,
    pattern: &Pattern,
    searched: &Text,
    by: &Text,
    all: bool,
) -> Result<String, AllocError> {
    let is_match = pattern.is_match(alloc, searched)?;
    match pattern.replace(alloc, searched, by, all) {
        Ok(given) => given_shown(alloc, &given, is_match),
        Err(error) => format!(in alloc; "{error:?}"),
    }
}

fn given_shown(alloc: Global, given: &Text, is_match: bool) -> Result<String, AllocError> {
    let mut out = text_shown(alloc, given)?;
    write!(out, " {is_match}")?;
    Ok(out)
}
