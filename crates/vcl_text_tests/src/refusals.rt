// Texts that are read or checked, and where they are refused.
use crate::repeated::expanded;
use crate::unless_same;
use std::alloc::{AllocError, Global};
use units::Text;
use vcl_check::{Program, check};
use vcl_parse::parse;
use vcl_tree::{Tree, VclError};
use vmod_host::VmodTable;

/// What is said of the row's text, where the row wants something else. Behind a plus a text is to be taken. Behind the number
/// of a refusal it is to be refused so at the place of `@`, which is no part of it.
pub fn otherwise(
    alloc: Global,
    vmods: &VmodTable,
    word: &str,
    row: &str,
) -> Result<Option<String>, AllocError> {
    let (kind, text) = row.split_once(' ').unwrap_or((row, ""));
    let text = expanded(alloc, text)?;
    match text.as_str().split_once('@') {
        Some(parts) => otherwise_at(alloc, vmods, word, kind, parts),
        None => unless_said(alloc, vmods, word, text.as_str(), kind),
    }
}

// The same of a text in two parts, which is to be refused where the first one ends.
fn otherwise_at(
    alloc: Global,
    vmods: &VmodTable,
    word: &str,
    kind: &str,
    parts: (&str, &str),
) -> Result<Option<String>, AllocError> {
    let (front, back) = parts;
    let place = front.len();
    let wanted = format!(in alloc; "{kind} at {place}")?;
    let unmarked = format!(in alloc; "{front}{back}")?;
    unless_said(alloc, vmods, word, unmarked.as_str(), wanted.as_str())
}

fn unless_said(
    alloc: Global,
    vmods: &VmodTable,
    word: &str,
    text: &str,
    wanted: &str,
) -> Result<Option<String>, AllocError> {
    Ok(unless_same(said(alloc, vmods, word, text)?, wanted))
}

// A plus, or the number of the refusal and its place.
fn said(alloc: Global, vmods: &VmodTable, word: &str, text: &str) -> Result<String, AllocError> {
    let taken = if word == "parse" {
        parsed(alloc, text)
    } else {
        checked(alloc, vmods, text)
    };
    match taken {
        Ok(()) => format!(in alloc; "+"),
        Err(VclError::NoMemory) => format!(in alloc; "no memory"),
        Err(VclError::Refused { kind, place }) => {
            let number = kind.number();
            format!(in alloc; "{number} at {place}")
        }
    }
}

/// The tree of a text.
pub fn tree_of(alloc: Global, text: &str) -> Result<Tree, VclError> {
    let text = Text::of(alloc, text.as_bytes())?;
    parse(alloc, &text)
}

fn parsed(alloc: Global, text: &str) -> Result<(), VclError> {
    let _ = tree_of(alloc, text)?;
    Ok(())
}

fn checked(alloc: Global, vmods: &VmodTable, text: &str) -> Result<(), VclError> {
    let _ = program_of(alloc, vmods, text)?;
    Ok(())
}

/// The program of a text.
pub fn program_of(alloc: Global, vmods: &VmodTable, text: &str) -> Result<Program, VclError> {
    check(alloc, tree_of(alloc, text)?, vmods)
}
