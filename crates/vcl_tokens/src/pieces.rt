// A text's pieces, one after another.
ghost use Rattle.std.specs.Prelude.{◌≡◌, ◌<◌, ◌≤◌, ℕ, List, length, IfOk, IfErr};
ghost use Rattle.std.specs.Prelude.{OnOk};
ghost use Rattle.vcl_tree.specs.declared.token.Token.{Token};
ghost use Rattle.vcl_tokens.specs.Reading.{Reads, Faults, IsPiece, IsFault, IsRefusal, is_passed_over, with_token, text_limit};

use crate::longest::longest_piece;
use crate::spelling::Form;
use crate::values::token;
use std::alloc::{AllocError, Global};
use units::{Sequence, Text};
use vcl_tree::{Refusal, Token, TokenKind, VclError};

/// The tokens of a text, in order.
pub type Tokens = Sequence<Token>;

/// A VCL text has at most so many bytes.
pub const TEXT_LIMIT: u32 = 1_048_576;

/// The tokens of a text, each with the place of its first byte. A text of more than 1,048,576 bytes is refused as
/// too long, with that number as the place. Else the first place from the left is refused at which no token
/// begins, or one that is none: a comment or string that doesn't end, a NUL in a string, a number out of range.
pub fn tokens(alloc: Global, text: &Text) -> Result<Tokens, VclError>
    ensures short { IfOk result (λ tokens. length text.now ≤ text_limit) }
    ensures read { IfOk result (λ tokens. Reads 0 text.now tokens) }
    ensures refused { IfErr result (IsRefusal text.now) }
{
    let bytes = text.bytes();
    if bytes.len() > TEXT_LIMIT as usize {
        return Err(VclError::Refused {
            kind: Refusal::TooLong,
            place: TEXT_LIMIT,
        });
    }
    read_all(alloc, bytes)
}

/// A text has at most one reading, and none where it has a fault, of which it has at most one.
pub fn one_reading()
    ensures one { (text : List ℕ) (a b : List Token) → Reads 0 text a → Reads 0 text b → a ≡ b }
    ensures faultless { (text : List ℕ) (a : List Token) (place : ℕ) → Reads 0 text a → ¬ Faults 0 text place }
    ensures one_fault { (text : List ℕ) (a b : ℕ) → Faults 0 text a → Faults 0 text b → a ≡ b }
{}

fn read_all(alloc: Global, bytes: &[u8]) -> Result<Tokens, VclError>
    requires { length bytes.now ≤ text_limit }
    ensures read { IfOk result (λ tokens. Reads 0 bytes.now tokens) }
    ensures refused { IfErr result (IsFault 0 bytes.now) }
{
    let mut tokens = Sequence::new(alloc);
    let mut place = 0;
    let mut rest = bytes;
    while !rest.is_empty() {
        let Piece { length, kind } = next_piece(alloc, rest, place)?;
        add_token(&mut tokens, kind, place)?;
        place += length as u32;
        rest = rest.split_at(length).1;
    }
    Ok(tokens)
}

// Puts the token of a piece at the end, if it is one.
fn add_token(tokens: &mut Tokens, kind: Option<TokenKind>, place: u32) -> Result<(), AllocError>
    ensures { OnOk result (tokens.new ≡ with_token tokens.old kind place) }
{
    if let Some(kind) = kind {
        tokens.push(Token { kind, place })?;
    }
    Ok(())
}

#[derive(Drop)]
struct Piece {
    length: usize,
    // None where the piece is passed over.
    kind: Option<TokenKind>,
}

// The piece at the front of the text, which stands at this place.
fn next_piece(alloc: Global, text: &[u8], place: u32) -> Result<Piece, VclError>
    requires { 0 < length text.now }
    ensures some { IfOk result (λ piece. 0 < piece.length) }
    ensures within { IfOk result (λ piece. piece.length ≤ length text.now) }
    ensures piece { IfOk result (λ piece. IsPiece text.now piece.length piece.kind) }
    ensures refused { IfErr result (IsFault place text.now) }
{
    let fault = VclError::Refused {
        kind: Refusal::Token,
        place,
    };
    let Some((length, form)) = longest_piece(text) else {
        return Err(fault);
    };
    if is_passed(form) {
        return Ok(Piece { length, kind: None });
    }
    match token(alloc, form, text.split_at(length).0)? {
        Some(kind) => Ok(Piece {
            length,
            kind: Some(kind),
        }),
        None => Err(fault),
    }
}

fn is_passed(form: Form) -> bool
    ensures { result ≡ is_passed_over form }
{
    matches!(form, Form::Blank | Form::Comment)
}
