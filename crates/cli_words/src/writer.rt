// Writing words so that they are read again.
ghost use Rattle.std.specs.Prelude.{◌≡◌, ℕ, List, IfOk, OnOk, OnErr, ◌++◌, ◌≤◌, ◌<◌, ◌==◌, ◌||◌, length, ◌∷◌};
ghost use Rattle.std.specs.List.{list_any, AllByRecursion};
ghost use Rattle.cli_words.specs.Words.{HasWords, ReadsWords, words_text, word_text, is_special, IsBytes};

use std::alloc::{AllocError, Global};
use units::{Text, quote};

/// The words as a line: with one space between two, and a word quoted where it has a blank, CR, LF, `"`, `\` or no
/// bytes. `split` reads them again where the line is within its limit.
pub fn write_words(alloc: Global, words: &[Text]) -> Result<Text, AllocError>
    ensures text { IfOk result (λ line. line ≡ words_text words.now) }
    ensures read_again { IfOk result (λ line. length line ≤ 1048576 → HasWords line words.now) }
{
    match words {
        [] => Text::of(alloc, b""),
        [first, rest @ ..] => write_some(alloc, first, rest),
    }
}

// The first word and the others.
fn write_some(alloc: Global, first: &Text, rest: &[Text]) -> Result<Text, AllocError>
    ensures text { IfOk result (λ line. line ≡ words_text (first.now ∷ rest.now)) }
    ensures read_again { IfOk result (λ line. ReadsWords (first.now ∷ rest.now) line) }
{
    let mut out = Vec::new(alloc);
    push_word(&mut out, alloc, first)?;
    for word in rest {
        push_next_word(&mut out, alloc, word)?;
    }
    Text::from_vec(out)
}

// Writes a space and a word at the end.
fn push_next_word(out: &mut Vec<u8>, alloc: Global, word: &Text) -> Result<(), AllocError>
    ensures ok { OnOk result (out.new.items ≡ out.old.items ++ 32 ∷ word_text word.now) }
    ensures bytes { OnOk result (IsBytes word.now) }
{
    out.push(b' ')?;
    push_word(out, alloc, word)
}

// Writes one word at the end.
fn push_word(out: &mut Vec<u8>, alloc: Global, word: &Text) -> Result<(), AllocError>
    ensures ok { OnOk result (out.new.items ≡ out.old.items ++ word_text word.now) }
    ensures bytes { IsBytes word.now }
{
    let bytes = word.bytes();
    if needs_quotes(bytes) {
        let text = quote(alloc, bytes)?;
        return out.extend_from_slice(text.bytes());
    }
    out.extend_from_slice(bytes)
}

fn needs_quotes(word: &[u8]) -> bool
    ensures { result ≡ ((length word.now == 0) || list_any is_special word.now) }
{
    word.is_empty() || has_special_byte(word)
}

fn has_special_byte(word: &[u8]) -> bool
    ensures { result ≡ list_any is_special word.now }
{
    word.iter().any(|byte| is_special_byte(*byte))
}

fn is_special_byte(byte: u8) -> bool
    ensures { result ≡ is_special byte }
{
    byte == b' ' || byte == b'\t' || byte == b'\r' || byte == b'\n' || byte == b'"' || byte == b'\\'
}
