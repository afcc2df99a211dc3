// Single tokens.
ghost use Rattle.std.specs.Prelude.{◌≡◌, ◌∷◌, [], ◌<◌, ◌≤◌, false, ℕ, MatchOption, MatchResult, IfOk, length};
ghost use Rattle.vcl_tree.specs.declared.token.Sign.TheVariants as sign;
ghost use Rattle.vcl_tree.specs.declared.token.Token.{Token};
ghost use Rattle.vcl_parse.specs.Machine.{Take, AnyName, NewName, Number};
ghost use Rattle.vcl_tree.specs.Phrase.{Integer, Named};
ghost use Rattle.vcl_tree.specs.StatementView.{name_of};
ghost use Rattle.vcl_parse.specs.Steps.{Passes, ReadsOne, StopsOne, BeginsWith, first_at, sign_level, opens_sign, IsEntered, IsTooDeep};
ghost use Rattle.vcl_tree.specs.Signs.{first_is};

use crate::stop::{Stop, given_up};
use std::alloc::AllocError;
use units::Text;
use vcl_tree::{Mask, Name, Sign, Token, TokenKind};

/// The first token and the others.
pub fn split(tokens: &[Token]) -> Option<(&Token, &[Token])>
    ensures { MatchOption result (tokens.now ≡ []) (λ x. tokens.now ≡ x.0.now ∷ x.1.now) }
{
    tokens.split_first()
}

/// The place of the sign and what stands behind it, if it comes first.
pub fn behind_sign(tokens: &[Token], sign: Sign) -> Option<(u32, &[Token])>
    ensures { MatchOption result (first_is sign tokens.now ≡ false) (λ x. BeginsWith sign x.0 tokens.now x.1.now) }
{
    let (first, rest) = split(tokens)?;
    match first.kind {
        TokenKind::Sign(found) if found == sign => Some((first.place, rest)),
        _ => None,
    }
}

/// The place of the first token, or 0 where there is none.
pub fn first_place(tokens: &[Token]) -> u32
    ensures { result ≡ first_at tokens.now }
{
    match split(tokens) {
        Some((first, _)) => first.place,
        None => 0,
    }
}

/// Whether the sign comes first.
pub fn begins(tokens: &[Token], sign: Sign) -> bool
    ensures { result ≡ first_is sign tokens.now }
{
    match split(tokens) {
        None => false,
        Some((first, _)) => match first.kind {
            TokenKind::Sign(found) => found == sign,
            _ => false,
        },
    }
}

/// What stands behind the sign, which has to come first and opens nothing.
pub fn expect(tokens: &[Token], sign: Sign) -> Result<&[Token], Stop>
    requires { opens_sign sign ≡ false }
    ensures { MatchResult result
        (λ rest. Passes (Take sign) (sign_level sign) tokens.now rest.now)
        (λ why. StopsOne (Take sign) tokens.now why) }
{
    match behind_sign(tokens, sign) {
        Some((_, rest)) => Ok(rest),
        None => Err(Stop::Syntax(tokens.len())),
    }
}

/// What was read, and what stands behind the sign, which has to come next and opens nothing.
pub fn ended<V: Drop>(read: V, tokens: &[Token], sign: Sign) -> Result<(V, &[Token]), Stop>
    requires { opens_sign sign ≡ false }
    ensures passed { MatchResult result
        (λ x. Passes (Take sign) (sign_level sign) tokens.now x.1.now)
        (λ why. StopsOne (Take sign) tokens.now why) }
    ensures same { IfOk result (λ x. x.0 ≡ read) }
{
    match expect(tokens, sign) {
        Ok(rest) => Ok((read, rest)),
        Err(why) => Err(given_up(read, why)),
    }
}

/// The depth behind a sign that opens, with so many tokens left at it.
pub fn enter(depth: u32, left: usize) -> Result<u32, Stop>
    ensures { MatchResult result (IsEntered depth) (IsTooDeep depth left) }
{
    if depth >= 64 {
        return Err(Stop::TooDeep(left));
    }
    Ok(depth + 1)
}

/// A name, or a word that stands as one.
pub fn any_name(tokens: &[Token]) -> Result<(Name, &[Token]), Stop>
    ensures { MatchResult result
        (λ x. ReadsOne AnyName tokens.now (name_of x.0) x.1.now)
        (λ why. StopsOne AnyName tokens.now why) }
{
    let Some((first, rest)) = split(tokens) else {
        return Err(Stop::Syntax(0));
    };
    match &first.kind {
        TokenKind::Name(name) => Ok((named(first.place, name)?, rest)),
        TokenKind::Word(_, name) => Ok((named(first.place, name)?, rest)),
        _ => Err(Stop::Syntax(tokens.len())),
    }
}

/// A name that is no word.
pub fn new_name(tokens: &[Token]) -> Result<(Name, &[Token]), Stop>
    ensures { MatchResult result
        (λ x. ReadsOne NewName tokens.now (name_of x.0) x.1.now)
        (λ why. StopsOne NewName tokens.now why) }
{
    let Some((first, rest)) = split(tokens) else {
        return Err(Stop::Syntax(0));
    };
    match &first.kind {
        TokenKind::Name(name) => Ok((named(first.place, name)?, rest)),
        _ => Err(Stop::Syntax(tokens.len())),
    }
}

fn named(place: u32, name: &Text) -> Result<Name, AllocError>
    ensures { IfOk result (λ x. name_of x ≡ Named place name.now) }
{
    let text = name.copy()?;
    Ok(Name { place, text })
}

/// The number of a mask.
pub fn mask_number(tokens: &[Token]) -> Result<(Mask, &[Token]), Stop>
    ensures { MatchResult result
        (λ x. ReadsOne Number tokens.now (Integer x.0.place x.0.bits) x.1.now)
        (λ why. StopsOne Number tokens.now why) }
{
    let Some((first, rest)) = split(tokens) else {
        return Err(Stop::Syntax(0));
    };
    match first.kind {
        TokenKind::Integer(bits) => Ok((
            Mask {
                place: first.place,
                bits,
            },
            rest,
        )),
        _ => Err(Stop::Syntax(tokens.len())),
    }
}
