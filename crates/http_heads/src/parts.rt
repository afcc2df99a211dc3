// The parts of a text between separators.
ghost use Rattle.std.specs.Prelude.{◌≡◌, ◌<◌, ◌≤◌, ◌+◌, ◌++◌, ◌∷◌, [], drop, filter, length, MatchOption, IfOk, OnOk};
ghost use Rattle.std.specs.List.{position_or_len, list_any};
ghost use Rattle.http_heads.specs.Lists.{separates as is_separator, parts, is_full, is_word as names_it};

use std::alloc::{AllocError, Global};
use units::{Sequence, Text, fold_eq, trim_blanks};

/// What separates the parts of a text.
#[derive(Clone, Copy, Debug, PartialEq, Eq)]
pub enum Separators {
    /// Commas, with blanks round the parts (RFC 9110, section 5.6.1).
    Commas,
    /// Commas, spaces and tabs.
    CommasAndBlanks,
}

fn separates(separators: Separators, byte: u8) -> bool
    ensures { result ≡ is_separator separators byte }
{
    match separators {
        Separators::Commas => byte == b',',
        Separators::CommasAndBlanks => byte == b',' || byte == b' ' || byte == b'\t',
    }
}

// The place of the first separator, or the end.
fn place_of(text: &[u8], separators: Separators) -> usize
    ensures place { result ≡ position_or_len (is_separator separators) text.now }
    ensures within { result ≤ length text.now }
{
    let mut place = 0;
    while place < text.len() && !separates(separators, text[place]) {
        place += 1;
    }
    place
}

// What stands behind a place.
fn behind(text: &[u8], place: usize) -> &[u8]
    requires { place < length text.now }
    ensures { result.now ≡ drop (place + 1) text.now }
{
    &text[place + 1..]
}

// The first part, and the text behind its separator.
fn first_part(text: &[u8], separators: Separators) -> (&[u8], Option<&[u8]>)
    ensures { MatchOption result.1
        (parts separators text.now ≡ result.0.now ∷ [])
        (λ behind. (parts separators text.now ≡ result.0.now ∷ parts separators behind.now) × (length behind.now < length text.now)) }
{
    let place = place_of(text, separators);
    let part = trim_blanks(&text[..place]);
    if place < text.len() {
        (part, Some(behind(text, place)))
    } else {
        (part, None)
    }
}

fn is_word(word: &[u8], part: &[u8]) -> bool
    ensures { result ≡ names_it word.now part.now }
{
    fold_eq(word, part)
}

/// Whether a part between commas is the word.
pub(crate) fn has_part(text: &[u8], word: &[u8]) -> bool
    ensures { result ≡ list_any (names_it word.now) (parts Separators.Commas text.now) }
{
    let mut rest = text;
    loop {
        let (part, behind) = first_part(rest, Separators::Commas);
        if is_word(word, part) {
            return true;
        }
        match behind {
            Some(behind) => rest = behind,
            None => return false,
        }
    }
}

fn push_full(alloc: Global, out: &mut Vec<Text>, part: &[u8]) -> Result<(), AllocError>
    ensures { OnOk result (out.new.items ≡ out.old.items ++ filter is_full (part.now ∷ [])) }
{
    if !part.is_empty() {
        out.push(Text::of(alloc, part)?)?;
    }
    Ok(())
}

/// Puts the parts that aren't empty at the end.
pub(crate) fn push_parts(
    alloc: Global,
    out: &mut Vec<Text>,
    text: &[u8],
    separators: Separators,
) -> Result<(), AllocError>
    ensures { OnOk result (out.new.items ≡ out.old.items ++ filter is_full (parts separators text.now)) }
{
    let mut rest = text;
    loop {
        let (part, behind) = first_part(rest, separators);
        push_full(alloc, out, part)?;
        match behind {
            Some(behind) => rest = behind,
            None => return Ok(()),
        }
    }
}

/// The parts of a text that aren't empty, in order.
pub fn split_list(
    alloc: Global,
    text: &[u8],
    separators: Separators,
) -> Result<Sequence<Text>, AllocError>
    ensures { IfOk result (λ list. list ≡ filter is_full (parts separators text.now)) }
{
    let mut out = Vec::new(alloc);
    push_parts(alloc, &mut out, text, separators)?;
    Ok(Sequence::from_vec(out))
}
