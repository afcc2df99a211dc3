// Texts between quotes, with escapes.
ghost use Rattle.std.specs.Prelude.{◌≡◌, ◌≤◌, ◌<◌, ◌∷◌, ◌++◌, [], List, ℕ, length, IfOk, MatchOption, IfNone, IfSome, OnOk, OnErr, SomeIff, option_map, Option, Some, None};
ghost use Rattle.std.specs.Char.{digit_value, digit_char};
ghost use Rattle.units.specs.Signs.{quote_mark};
ghost use Rattle.units.specs.Quoted.{IsQuoted, IsQuotedAt, ReadsPieces, escape, hexadecimal, octal, piece, piece_of, quote_of, sign_byte};

use crate::text::Text;
use std::alloc::{AllocError, Global};

/// The text between quotes, with escapes for the quote, the backslash and each byte that doesn't print.
/// It takes at most four bytes for one, and two.
pub fn quote(alloc: Global, bytes: &[u8]) -> Result<Text, AllocError>
    ensures { IfOk result (λ t. t ≡ quote_of bytes.now) }
{
    let mut out = Vec::new(alloc);
    out.push(b'"')?;
    for byte in bytes {
        push_piece(&mut out, *byte)?;
    }
    out.push(b'"')?;
    Text::from_vec(out)
}

/// The quoted text that stands at a place of the bytes: the bytes that it stands for, and the place behind
/// it. None where no quoted text stands there; memory is taken, and wanting, only where one does.
pub fn quoted(alloc: Global, bytes: &[u8], from: usize) -> Result<Option<(Text, usize)>, AllocError>
    ensures ok { IfOk result (λ found. MatchOption found
        ((values : List ℕ) (behind : ℕ) → IsQuotedAt bytes.now from values behind → ⊥)
        (λ x. IsQuotedAt bytes.now from x.0 x.1)) }
    ensures wanting { OnErr result ((values : List ℕ) × (behind : ℕ) × IsQuotedAt bytes.now from values behind) }
{
    let Some(behind) = end_of_quoted(bytes, from) else {
        return Ok(None);
    };
    let values = values_of(alloc, &bytes[from + 1..])?;
    Ok(Some((Text::from_vec(values)?, behind)))
}

/// The place behind the quoted text that stands at a place of the bytes. None where no quoted text stands
/// there.
pub fn end_of_quoted(bytes: &[u8], from: usize) -> Option<usize>
    ensures { MatchOption result
        ((values : List ℕ) (behind : ℕ) → IsQuotedAt bytes.now from values behind → ⊥)
        (λ behind. (values : List ℕ) × IsQuotedAt bytes.now from values behind) }
{
    if from > bytes.len() {
        return None;
    }
    let body = bytes[from..].strip_prefix(b"\"")?;
    let rest = after_body(body)?;
    Some(bytes.len() - rest.len())
}

// What is behind a quoted text, from behind its first quote on.
fn after_body(body: &[u8]) -> Option<&[u8]>
    ensures { MatchOption result
        ((values rest : List ℕ) → ReadsPieces values body.now (quote_mark ∷ rest) → ⊥)
        (λ rest. (values : List ℕ) × ReadsPieces values body.now (quote_mark ∷ rest.now)) }
{
    let mut rest = body;
    while let Some((_, behind)) = read_piece(rest) {
        rest = behind;
    }
    rest.strip_prefix(b"\"")
}

// What the pieces stand for, as far as pieces go.
fn values_of(alloc: Global, body: &[u8]) -> Result<Vec<u8>, AllocError>
    ensures { IfOk result (λ values. (rest : List ℕ) × ReadsPieces values.items body.now rest × (piece rest ≡ None)) }
{
    let mut values = Vec::new(alloc);
    let mut rest = body;
    while let Some((value, behind)) = read_piece(rest) {
        values.push(value)?;
        rest = behind;
    }
    Ok(values)
}

/// No quoted text begins another: the bytes begin with at most one.
pub fn one_quoted(bytes: &[u8])
    ensures { (v w x y : List ℕ) → IsQuoted v bytes.now x → IsQuoted w bytes.now y → (v ≡ w) × (x ≡ y) }
{}

/// What `quote` writes of a text is read as that text again, whatever follows it.
pub fn quote_reads_back(text: &[u8])
    ensures { (rest : List ℕ) → IsQuoted text.now (quote_of text.now ++ rest) rest }
{}

// Writes one byte of a quoted text at the end.
fn push_piece(out: &mut Vec<u8>, byte: u8) -> Result<(), AllocError>
    ensures { OnOk result (out.new.items ≡ out.old.items ++ piece_of byte) }
{
    match byte {
        b'\\' => out.extend_from_slice(b"\\\\"),
        b'"' => out.extend_from_slice(b"\\\""),
        b'\n' => out.extend_from_slice(b"\\n"),
        b'\r' => out.extend_from_slice(b"\\r"),
        b'\t' => out.extend_from_slice(b"\\t"),
        32..=126 => out.extend_from_slice(&[byte]),
        _ => out.extend_from_slice(&[
            b'\\',
            b'x',
            hexadecimal_digit(byte / 16),
            hexadecimal_digit(byte % 16),
        ]),
    }
}

fn hexadecimal_digit(digit: u8) -> u8
    requires { digit < 16 }
    ensures { result ≡ digit_char digit }
{
    if digit < 10 {
        b'0' + digit
    } else {
        b'a' - 10 + digit
    }
}

// The byte that the first piece stands for, and what is behind the piece.
fn read_piece(bytes: &[u8]) -> Option<(u8, &[u8])>
    ensures { option_map (λ x. (x.0, x.1.now)) result ≡ piece bytes.now }
{
    match bytes {
        [] | [b'"' | b'\n', ..] => None,
        [b'\\', rest @ ..] => read_escape(rest),
        [first, rest @ ..] => Some((*first, rest)),
    }
}

/// The byte that an escape stands for, read from behind its backslash on, and what is behind the escape. None
/// where no escape stands there.
pub fn read_escape(bytes: &[u8]) -> Option<(u8, &[u8])>
    ensures { option_map (λ x. (x.0, x.1.now)) result ≡ escape bytes.now }
{
    match bytes {
        [] => None,
        [b'x', rest @ ..] => read_hexadecimal(rest),
        [b'0'..=b'9', ..] => read_octal(bytes),
        [sign, rest @ ..] => Some((byte_of_sign(*sign)?, rest)),
    }
}

fn byte_of_sign(sign: u8) -> Option<u8>
    ensures { result ≡ sign_byte sign }
{
    match sign {
        b'\\' => Some(b'\\'),
        b'"' => Some(b'"'),
        b'n' => Some(b'\n'),
        b'r' => Some(b'\r'),
        b't' => Some(b'\t'),
        _ => None,
    }
}

fn read_hexadecimal(bytes: &[u8]) -> Option<(u8, &[u8])>
    ensures { option_map (λ x. (x.0, x.1.now)) result ≡ hexadecimal bytes.now }
{
    let [high, low, rest @ ..] = bytes else {
        return None;
    };
    let high = digit_below(*high, 16)?;
    let low = digit_below(*low, 16)?;
    Some((16 * high + low, rest))
}

fn read_octal(bytes: &[u8]) -> Option<(u8, &[u8])>
    ensures { option_map (λ x. (x.0, x.1.now)) result ≡ octal bytes.now }
{
    let [high, middle, low, rest @ ..] = bytes else {
        return None;
    };
    let high = digit_below(*high, 4)?;
    let middle = digit_below(*middle, 8)?;
    let low = digit_below(*low, 8)?;
    Some((64 * high + 8 * middle + low, rest))
}

// The value of a digit or a letter, where it is below the limit.
fn digit_below(digit: u8, limit: u8) -> Option<u8>
    requires { limit ≤ 36 }
    ensures { SomeIff result (digit_value digit < limit) (digit_value digit) }
{
    let value = match digit {
        b'0'..=b'9' => digit - b'0',
        b'a'..=b'z' => digit - b'a' + 10,
        b'A'..=b'Z' => digit - b'A' + 10,
        _ => return None,
    };
    if value < limit { Some(value) } else { None }
}
