// What token a piece is.
ghost use Rattle.std.specs.Prelude.{◌≡◌, ◌<◌, IfOk, MatchOption};
ghost use Rattle.vcl_tree.specs.declared.token.TokenKind.{TokenKind};
ghost use Rattle.vcl_tokens.specs.Reading.{Means, IsString, named, between};
ghost use Rattle.vcl_tokens.specs.Words.{word_of};

use crate::spelling::Form;
use crate::words::word;
use std::alloc::{AllocError, Global};
use units::{Text, read_millis, value_of_digits};
use vcl_tree::TokenKind;

/// The token that a piece is; None where it is none, as a comment, an unended string or a number out of range.
pub fn token(alloc: Global, form: Form, bytes: &[u8]) -> Result<Option<TokenKind>, AllocError>
    ensures { IfOk result (λ token. MatchOption token
        ((other : TokenKind) → Means form bytes.now other → ⊥)
        (λ token. Means form bytes.now token)) }
{
    match form {
        Form::Blank | Form::Comment | Form::Unended => Ok(None),
        Form::Name => Ok(Some(name(alloc, bytes)?)),
        Form::Integer => Ok(integer(bytes)),
        Form::Decimal => Ok(Some(TokenKind::Decimal(Text::of(alloc, bytes)?))),
        Form::Duration => Ok(duration(bytes)),
        Form::Quoted => string(alloc, bytes, 1),
        Form::LongQuoted => string(alloc, bytes, 2),
        Form::TripleQuoted => string(alloc, bytes, 3),
        Form::Sign(sign) => Ok(Some(TokenKind::Sign(sign))),
    }
}

fn name(alloc: Global, bytes: &[u8]) -> Result<TokenKind, AllocError>
    ensures { IfOk result (λ token. token ≡ named (word_of bytes.now) bytes.now) }
{
    let text = Text::of(alloc, bytes)?;
    match word(bytes) {
        Some(word) => Ok(TokenKind::Word(word, text)),
        None => Ok(TokenKind::Name(text)),
    }
}

fn integer(bytes: &[u8]) -> Option<TokenKind>
    ensures { MatchOption result
        ((other : TokenKind) → Means Form.Integer bytes.now other → ⊥)
        (λ token. Means Form.Integer bytes.now token) }
{
    let value = value_of_digits(bytes)?;
    if value > i64::MAX as u64 {
        return None;
    }
    Some(TokenKind::Integer(value as i64))
}

fn duration(bytes: &[u8]) -> Option<TokenKind>
    ensures { MatchOption result
        ((other : TokenKind) → Means Form.Duration bytes.now other → ⊥)
        (λ token. Means Form.Duration bytes.now token) }
{
    match read_millis(bytes) {
        Some(millis) => Some(TokenKind::Duration(millis)),
        None => None,
    }
}

// The string within quotes of so many bytes at each end.
fn string(alloc: Global, bytes: &[u8], quotes: usize) -> Result<Option<TokenKind>, AllocError>
    requires { quotes < 4 }
    ensures { IfOk result (λ token. MatchOption token
        ((other : TokenKind) → IsString (between quotes bytes.now) other → ⊥)
        (λ token. IsString (between quotes bytes.now) token)) }
{
    let inner = within(bytes, quotes);
    if inner.contains(&0) {
        return Ok(None);
    }
    Ok(Some(TokenKind::String(Text::of(alloc, inner)?)))
}

// The bytes between so many at each end.
fn within(bytes: &[u8], quotes: usize) -> &[u8]
    requires { quotes < 4 }
    ensures { result.now ≡ between quotes bytes.now }
{
    if bytes.len() < 2 * quotes {
        return &[];
    }
    let inner = bytes.split_at(quotes).1;
    inner.split_at(bytes.len() - 2 * quotes).0
}
