// The tokens of texts.
use crate::repeated::expanded;
use std::alloc::{AllocError, Global};
use units::{Text, quoted};
use vcl_tokens::{one_reading, tokens};
use vcl_tree::{Token, TokenKind, VclError};

/// The tokens of a quoted text, or why and where it is refused.
pub fn tokens_shown(alloc: Global, row: &str) -> Result<String, AllocError> {
    let row = expanded(alloc, row)?;
    match quoted(alloc, row.as_bytes(), 0)? {
        Some((text, _)) => shown(alloc, &text),
        None => format!(in alloc; "no text"),
    }
}

/// The bytes that are a text by themselves. Each of the others begins no token, or one that doesn't end.
pub fn alone_shown(alloc: Global) -> Result<String, AllocError> {
    one_reading();
    let mut alone = Vec::new(alloc);
    for byte in 0..=255u8 {
        if is_text(alloc, byte)? {
            alone.push(byte)?;
        }
    }
    let alone = Text::from_vec(alone)?;
    format!(in alloc; "{alone:?}")
}

fn is_text(alloc: Global, byte: u8) -> Result<bool, AllocError> {
    let text = Text::of(alloc, &[byte])?;
    Ok(shown(alloc, &text)?.as_str() != "1 at 0")
}

fn shown(alloc: Global, text: &Text) -> Result<String, AllocError> {
    match tokens(alloc, text) {
        Ok(found) => tokens_in_turn(alloc, found.as_slice()),
        Err(VclError::NoMemory) => format!(in alloc; "no memory"),
        Err(VclError::Refused { kind, place }) => {
            let number = kind.number();
            format!(in alloc; "{number} at {place}")
        }
    }
}

fn tokens_in_turn(alloc: Global, tokens: &[Token]) -> Result<String, AllocError> {
    let count = tokens.len();
    let mut out = format!(in alloc; "{count}")?;
    for token in tokens {
        push_token(&mut out, token)?;
    }
    Ok(out)
}

// A token as a letter or the word for its kind, its place, and its content.
fn push_token(out: &mut String, token: &Token) -> Result<(), AllocError> {
    let place = token.place;
    match &token.kind {
        TokenKind::Name(name) => write!(out, " n{place}:{name:?}"),
        TokenKind::Word(word, name) => write!(out, " {word:?}{place}:{name:?}"),
        TokenKind::Integer(number) => write!(out, " i{place}:{number}"),
        TokenKind::Decimal(digits) => write!(out, " f{place}:{digits:?}"),
        TokenKind::Duration(millis) => write!(out, " d{place}:{millis}"),
        TokenKind::String(text) => write!(out, " s{place}:{text:?}"),
        TokenKind::Sign(sign) => write!(out, " {sign:?}{place}"),
    }
}
