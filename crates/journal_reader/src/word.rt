// The word that stands first.
ghost use Rattle.std.specs.Prelude.{◌≡◌, ◌≢◌, ◌∷◌, ◌++◌, ◌≤◌, ◌<◌, ◌^◌, [], ℕ, suc, negsuc, List, slice_index, true, IfOk, MatchOption};
ghost use Rattle.std.specs.List.{list_all, position};
ghost use Rattle.std.specs.Fmt.{decimal};
ghost use Rattle.units.specs.Numbers.{IsNumber};
ghost use Rattle.units.specs.Signs.{blank, quote_mark};
ghost use Rattle.journal_text.specs.declared.word.Word.{Word as Spelled};
ghost use Rattle.journal_text.specs.Words.{IsWord, is_key as is_key_text, is_key_byte as is_byte_of_key, loose, word_text};
ghost use Rattle.journal_reader.specs.Fronts.{IsFirst, IsParted, StandFirst, is_blank};

use journal_text::Word;
use std::alloc::{AllocError, Global};
use units::{Text, quote, quoted, read_number};

fn is_key_byte(byte: u8) -> bool
    ensures { result ≡ is_byte_of_key byte }
{
    byte > b'"' && !byte.is_ascii_digit()
}

fn are_key_bytes(text: &[u8]) -> bool
    ensures { result ≡ list_all is_byte_of_key text.now }
{
    text.iter().all(|byte| is_key_byte(*byte))
}

#[tactic(auto, using(crate::proofs::Firsts::key_by_bytes))]
fn is_key(text: &[u8]) -> bool
    ensures { result ≡ is_key_text text.now }
{
    !text.is_empty() && are_key_bytes(text)
}

// A number below zero, by how much it is.
fn below_zero(number: u64) -> Option<i64>
    ensures { MatchOption result
        ((n : ℕ) → number ≡ suc n → suc n ≤ 2 ^ 63 → ⊥)
        (λ z. (n : ℕ) × (number ≡ suc n) × (z ≡ negsuc n)) }
{
    if number == 0 {
        return None;
    }
    i64::try_from(-i128::from(number)).ok()
}

// The number below zero that a text is.
fn below(text: &[u8]) -> Option<i64>
    ensures { MatchOption result
        ((n : ℕ) → suc n ≤ 2 ^ 63 → text.now ≡ 45 ∷ decimal (suc n) → ⊥)
        (λ z. (n : ℕ) × (z ≡ negsuc n) × (text.now ≡ 45 ∷ decimal (suc n))) }
{
    let digits = behind_front(text, b"-")?;
    let number = read_number(digits)?;
    below_zero(number)
}

// The number that a text is.
fn number(text: &[u8]) -> Option<Word>
    ensures long { MatchOption result ((n : ℕ) → IsNumber text.now n → ⊥) (λ word. IsWord word × (loose word ≡ word) × (word_text word ≡ text.now)) }
    ensures below { MatchOption result ((n : ℕ) → suc n ≤ 2 ^ 63 → text.now ≡ 45 ∷ decimal (suc n) → ⊥) (λ word. word_text word ≡ text.now) }
{
    if let Some(number) = read_number(text) {
        return Some(Word::Long(number));
    }
    Some(Word::Signed(below(text)?))
}

fn blank_place(bytes: &[u8]) -> Option<usize>
    ensures { result ≡ position is_blank bytes.now }
{
    bytes.iter().position(|byte| *byte == b' ')
}

// The bytes up to the first blank, and those behind it.
#[tactic(auto, using(crate::proofs::Firsts::no_part))]
fn part(bytes: &[u8]) -> Option<(&[u8], &[u8])>
    ensures { MatchOption result ((front rest : List ℕ) → bytes.now ≡ front ++ blank ∷ rest → ⊥) (λ x. IsParted bytes.now x.0.now x.1.now) }
{
    let place = blank_place(bytes)?;
    Some((&bytes[..place], &bytes[place + 1..]))
}

// The word that a text without a quote is.
#[tactic(auto, using(crate::proofs::Firsts::no_bare))]
fn bare_word(alloc: Global, bytes: &[u8]) -> Result<Option<(Word, &[u8])>, AllocError>
    requires { slice_index bytes.now 0 ≢ quote_mark }
    ensures { IfOk result (λ found. MatchOption found
        ((word : Spelled) (rest : List ℕ) → IsWord word → bytes.now ≡ word_text word ++ blank ∷ rest → ⊥)
        (λ x. IsFirst bytes.now x.0 x.1.now)) }
{
    let Some((front, rest)) = part(bytes) else {
        return Ok(None);
    };
    if let Some(word) = number(front) {
        return Ok(Some((word, rest)));
    }
    if !is_key(front) {
        return Ok(None);
    }
    Ok(Some((Word::Key(Text::of(alloc, front)?), rest)))
}

// What is behind a front.
fn behind_front<'b>(bytes: &'b [u8], front: &[u8]) -> Option<&'b [u8]>
    ensures { MatchOption result ((rest : List ℕ) → bytes.now ≡ front.now ++ rest → ⊥) (λ rest. bytes.now ≡ front.now ++ rest.now) }
{
    bytes.strip_prefix(front)
}

// What is behind a front and a blank.
fn behind<'b>(bytes: &'b [u8], front: &[u8]) -> Option<&'b [u8]>
    ensures { MatchOption result ((rest : List ℕ) → bytes.now ≡ front.now ++ blank ∷ rest → ⊥) (λ rest. bytes.now ≡ front.now ++ blank ∷ rest.now) }
{
    match behind_front(bytes, front) {
        Some(rest) => behind_front(rest, b" "),
        None => None,
    }
}

// Each item of bytes is below 256.
fn are_bytes(bytes: &[u8])
    ensures { (i : ℕ) → slice_index bytes.now i < 256 }
{}

// The quoted word that stands first.
#[tactic(auto, using(crate::proofs::Firsts::no_quoted))]
fn quoted_word(alloc: Global, bytes: &[u8]) -> Result<Option<(Word, &[u8])>, AllocError>
    requires { slice_index bytes.now 0 ≡ quote_mark }
    ensures { IfOk result (λ found. MatchOption found
        ((word : Spelled) (rest : List ℕ) → IsWord word → bytes.now ≡ word_text word ++ blank ∷ rest → ⊥)
        (λ x. IsFirst bytes.now x.0 x.1.now)) }
{
    let Some((text, _)) = quoted(alloc, bytes, 0)? else {
        return Ok(None);
    };
    are_bytes(text.bytes());
    let written = quote(alloc, text.bytes())?;
    let Some(rest) = behind(bytes, written.bytes()) else {
        return Ok(None);
    };
    Ok(Some((Word::Quoted(text), rest)))
}

/// The word that stands first, and what is behind its blank. None where no word stands there.
pub(crate) fn read_word(alloc: Global, bytes: &[u8]) -> Result<Option<(Word, &[u8])>, AllocError>
    ensures { IfOk result (λ found. MatchOption found
        ((word : Spelled) (rest : List ℕ) → IsWord word → bytes.now ≡ word_text word ++ blank ∷ rest → ⊥)
        (λ x. IsFirst bytes.now x.0 x.1.now)) }
{
    if bytes.first() == Some(&b'"') {
        quoted_word(alloc, bytes)
    } else {
        bare_word(alloc, bytes)
    }
}
