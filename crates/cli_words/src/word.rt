// Reading one word.
ghost use Rattle.std.specs.Prelude.{◌≡◌, ◌↔◌, IsTrue, ℕ, List, ◌<◌, IfOk, MatchOption, IfSome, option_map, length};
ghost use Rattle.units.specs.Quoted.{IsQuoted};
ghost use Rattle.cli_words.specs.Words.{ReadsWord, ReadsPlain, IsWordEnd, is_blank, plain_piece};

use std::alloc::{AllocError, Global};
use units::{Text, end_of_quoted, quoted, read_escape};

/// The word that the bytes begin with, and what is behind it. None where they begin with none.
pub fn read_word(alloc: Global, start: &[u8]) -> Result<Option<(Text, &[u8])>, AllocError>
    requires { 0 < length start.now }
    ensures word { IfOk result (λ found. MatchOption found
        ((word rest : List ℕ) → ReadsWord word start.now rest → ⊥)
        (λ x. ReadsWord x.0 start.now x.1.now)) }
    ensures shorter { IfOk result (λ found. IfSome found (λ x. length x.1.now < length start.now)) }
{
    if start[0] == b'"' {
        let Some((word, rest)) = read_quoted(alloc, start)? else {
            return Ok(None);
        };
        return Ok(Some((word, rest)));
    }
    read_plain(alloc, start)
}

// The quoted text that the bytes begin with.
fn read_quoted(alloc: Global, start: &[u8]) -> Result<Option<(Text, &[u8])>, AllocError>
    ensures word { IfOk result (λ found. MatchOption found
        ((word rest : List ℕ) → IsQuoted word start.now rest → ⊥)
        (λ x. IsQuoted x.0 start.now x.1.now)) }
    ensures shorter { IfOk result (λ found. IfSome found (λ x. length x.1.now < length start.now)) }
{
    let Some((text, behind)) = quoted(alloc, start, 0)? else {
        return Ok(None);
    };
    Ok(Some((text, &start[behind..])))
}

// The plain word that the bytes begin with.
fn read_plain(alloc: Global, start: &[u8]) -> Result<Option<(Text, &[u8])>, AllocError>
    ensures word { IfOk result (λ found. MatchOption found
        ((word rest : List ℕ) → 0 < length word → ReadsPlain word start.now rest → IsWordEnd rest → ⊥)
        (λ x. (0 < length x.0) × ReadsPlain x.0 start.now x.1.now × IsWordEnd x.1.now)) }
    ensures shorter { IfOk result (λ found. IfSome found (λ x. length x.1.now < length start.now)) }
{
    let mut word = Vec::new(alloc);
    let mut rest = start;
    'pieces: while let Some((value, behind)) = read_piece(rest) {
        word.push(value)?;
        rest = behind;
    }
    if word.len() == 0 {
        return Ok(None);
    }
    if !is_word_end(rest) {
        return Ok(None);
    }
    Ok(Some((Text::from_vec(word)?, rest)))
}

/// What is behind the word that the bytes begin with. None where they begin with none. It takes no memory.
pub fn behind_word(start: &[u8]) -> Option<&[u8]>
    requires { 0 < length start.now }
    ensures word { MatchOption result
        ((word rest : List ℕ) → ReadsWord word start.now rest → ⊥)
        (λ rest. (word : List ℕ) × ReadsWord word start.now rest.now) }
    ensures shorter { IfSome result (λ rest. length rest.now < length start.now) }
{
    if start[0] == b'"' {
        let behind = end_of_quoted(start, 0)?;
        return Some(&start[behind..]);
    }
    behind_plain(start)
}

// What is behind the plain word that the bytes begin with.
fn behind_plain(start: &[u8]) -> Option<&[u8]>
    ensures word { MatchOption result
        ((word rest : List ℕ) → 0 < length word → ReadsPlain word start.now rest → IsWordEnd rest → ⊥)
        (λ rest. (word : List ℕ) × (0 < length word) × ReadsPlain word start.now rest.now × IsWordEnd rest.now) }
    ensures shorter { IfSome result (λ rest. length rest.now < length start.now) }
{
    let (_, first) = read_piece(start)?;
    let mut rest = first;
    'pieces: while let Some((_, behind)) = read_piece(rest) {
        rest = behind;
    }
    if is_word_end(rest) { Some(rest) } else { None }
}

// The byte that the first piece of a plain word stands for, and what is behind the piece.
fn read_piece(bytes: &[u8]) -> Option<(u8, &[u8])>
    ensures piece { option_map (λ x. (x.0, x.1.now)) result ≡ plain_piece bytes.now }
{
    match bytes {
        [] | [b' ' | b'\t', ..] => None,
        [b'\\', rest @ ..] => read_escape(rest),
        [first, rest @ ..] => Some((*first, rest)),
    }
}

fn is_word_end(rest: &[u8]) -> bool
    ensures { IsTrue result ↔ IsWordEnd rest.now }
{
    match rest {
        [] => true,
        [first, ..] => is_blank_byte(*first),
    }
}

/// Space and tab.
pub fn is_blank_byte(byte: u8) -> bool
    ensures { result ≡ is_blank byte }
{
    byte == b' ' || byte == b'\t'
}
