// The words of a ban that VCL gives.
ghost use Rattle.std.specs.Prelude.{◌≡◌, ◌<◌, ◌≤◌, ◌+◌, ◌++◌, ◌∷◌, [], take, drop, filter, length, MatchOption, IfOk, OnOk};
ghost use Rattle.std.specs.List.{position_or_len};
ghost use Rattle.http_heads.specs.Lists.{is_full};
ghost use Rattle.client_task.specs.BanWords.{is_blank as blank, pieces, words_of};

use std::alloc::{AllocError, Global};
use units::{Sequence, Text};

fn is_blank(byte: u8) -> bool
    ensures { result ≡ blank byte }
{
    byte == b' ' || byte == b'\t'
}

// The place of the first blank, or the end.
fn place_of(text: &[u8]) -> usize
    ensures place { result ≡ position_or_len blank text.now }
    ensures within { result ≤ length text.now }
{
    let mut place = 0;
    while place < text.len() && !is_blank(text[place]) {
        place += 1;
    }
    place
}

// What stands before a place.
fn before(text: &[u8], place: usize) -> &[u8]
    requires { place ≤ length text.now }
    ensures { result.now ≡ take place text.now }
{
    &text[..place]
}

// What stands behind a place.
fn behind(text: &[u8], place: usize) -> &[u8]
    requires { place < length text.now }
    ensures { result.now ≡ drop (place + 1) text.now }
{
    &text[place + 1..]
}

// What stands before the first blank, and the text behind that.
fn first_piece(text: &[u8]) -> (&[u8], Option<&[u8]>)
    ensures { MatchOption result.1
        (pieces text.now ≡ result.0.now ∷ [])
        (λ behind. (pieces text.now ≡ result.0.now ∷ pieces behind.now) × (length behind.now < length text.now)) }
{
    let place = place_of(text);
    let piece = before(text, place);
    if place < text.len() {
        (piece, Some(behind(text, place)))
    } else {
        (piece, None)
    }
}

fn push_full(alloc: Global, out: &mut Vec<Text>, piece: &[u8]) -> Result<(), AllocError>
    ensures { OnOk result (out.new.items ≡ out.old.items ++ filter is_full (piece.now ∷ [])) }
{
    if !piece.is_empty() {
        out.push(Text::of(alloc, piece)?)?;
    }
    Ok(())
}

fn push_words(alloc: Global, out: &mut Vec<Text>, text: &[u8]) -> Result<(), AllocError>
    ensures { OnOk result (out.new.items ≡ out.old.items ++ words_of text.now) }
{
    let mut rest = text;
    loop {
        let (piece, behind) = first_piece(rest);
        push_full(alloc, out, piece)?;
        match behind {
            Some(behind) => rest = behind,
            None => return Ok(()),
        }
    }
}

/// The words of a ban's text, which stand between blanks.
pub(crate) fn words_between_blanks(alloc: Global, text: &[u8]) -> Result<Sequence<Text>, AllocError>
    ensures { IfOk result (λ words. words ≡ words_of text.now) }
{
    let mut words = Vec::new(alloc);
    push_words(alloc, &mut words, text)?;
    Ok(Sequence::from_vec(words))
}
