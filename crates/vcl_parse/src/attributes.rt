// Attributes of backends and probes, and entries of ACLs.
#![tactic(auto, using(crate::proofs::Reading::reading))]

ghost use Rattle.std.specs.Prelude.{◌≡◌, ◌∷◌, ◌≤◌, ◌<◌, ℕ, List, false, map, IfOk, MatchOption, MatchResult, length};
ghost use Rattle.vcl_tree.specs.Phrase.{Phrase, list_of};
ghost use Rattle.vcl_tree.specs.AttributeView.{value_of};
ghost use Rattle.vcl_tree.specs.TreeView.{entry_of, masked};
ghost use Rattle.vcl_tree.specs.declared.token.Sign.TheVariants as sign;
ghost use Rattle.vcl_parse.specs.Machine.{Want, Read, Go, Take, Attributes, Value, Address, Entries, MoreAttributes, MoreEntries, Semicolon, watch};
ghost use Rattle.vcl_parse.specs.Machine as machine;
ghost use Rattle.vcl_parse.specs.Steps.{IsRead, IsStopped, ReadsOne, StopsOne, Ends, CarriesAny, CarriesOn, first_is_string, address_of};
ghost use Rattle.vcl_tree.specs.Signs.{first_is};

use crate::lists::add;
use crate::signs::{any_name, begins, behind_sign, ended, enter, first_place, mask_number, split};
use crate::stop::{Stop, given_up};
use std::alloc::Global;
use vcl_tree::{AclEntry, Attribute, AttributeValue, Mask, Name, Sign, Token, TokenKind};

/// Attributes in braces.
#[cycle(attribute)]
pub fn braced_attributes(
    alloc: Global,
    depth: u32,
    tokens: &[Token],
) -> Result<(Vec<Attribute>, &[Token]), Stop>
    ensures { MatchResult result
        (λ x. IsRead (Read Attributes) depth tokens.now (list_of x.0.items) x.1.now)
        (λ why. IsStopped (Read Attributes) depth tokens.now why) }
{
    let Some((_, behind)) = behind_sign(tokens, Sign::OpenBrace) else {
        return Err(Stop::Syntax(tokens.len()));
    };
    let deeper = enter(depth, tokens.len())?;
    let mut attributes = Vec::new(alloc);
    let mut rest = behind;
    'attributes: loop {
        match attribute_at(alloc, deeper, rest) {
            Ok(Some((attribute, later))) => {
                if let Err(why) = add(&mut attributes, attribute) {
                    return Err(given_up(attributes, why));
                }
                rest = later;
            }
            Ok(None) => return ended(attributes, rest, Sign::CloseBrace),
            Err(why) => return Err(given_up(attributes, why)),
        }
    }
}

// The attribute at the front, if one begins there.
#[cycle(attribute)]
fn attribute_at(
    alloc: Global,
    depth: u32,
    tokens: &[Token],
) -> Result<Option<(Attribute, &[Token])>, Stop>
    ensures { MatchResult result
        (λ found. MatchOption found
        (Ends MoreAttributes tokens.now)
        (λ x. CarriesOn MoreAttributes depth tokens.now x.0 x.1.now))
        (λ why. IsStopped (Go MoreAttributes) depth tokens.now why) }
{
    let Some((place, behind)) = behind_sign(tokens, Sign::Dot) else {
        return Ok(None);
    };
    let (name, rest) = any_name(behind)?;
    let (name, rest) = ended(name, rest, Sign::Assign)?;
    match value(alloc, depth, rest) {
        Ok((value, rest)) => Ok(Some((Attribute { place, name, value }, rest))),
        Err(why) => Err(given_up(name, why)),
    }
}

// The value of an attribute, and its semicolon.
#[cycle(attribute)]
fn value(alloc: Global, depth: u32, tokens: &[Token]) -> Result<(AttributeValue, &[Token]), Stop>
    ensures { MatchResult result
        (λ x. IsRead (Read Value) depth tokens.now (value_of x.0) x.1.now)
        (λ why. IsStopped (Read Value) depth tokens.now why) }
{
    if !begins(tokens, Sign::OpenBrace) {
        let (value, rest) = plain_value(tokens)?;
        return ended(value, rest, Sign::Semicolon);
    }
    let (attributes, rest) = braced_attributes(alloc, depth, tokens)?;
    let value = AttributeValue::Attributes(first_place(tokens), attributes);
    Ok((value, past_semicolon(rest)))
}

// A value without braces, before its semicolon.
fn plain_value(tokens: &[Token]) -> Result<(AttributeValue, &[Token]), Stop>
    requires { first_is sign.OpenBrace tokens.now ≡ false }
    ensures { MatchResult result
        (λ x. (length x.1.now < length tokens.now) × ((depth : ℕ) (s : List Want) (vs : List Phrase) →
        watch depth (Read Value ∷ s) vs tokens.now ≡ watch depth (Take sign.Semicolon ∷ s) (value_of x.0 ∷ vs) x.1.now))
        (λ why. StopsOne (Read Value) tokens.now why) }
{
    let Some((first, rest)) = split(tokens) else {
        return Err(Stop::Syntax(0));
    };
    let place = first.place;
    match &first.kind {
        TokenKind::Name(name) => {
            let text = name.copy()?;
            Ok((AttributeValue::Name(Name { place, text }), rest))
        }
        TokenKind::Word(_, name) => {
            let text = name.copy()?;
            Ok((AttributeValue::Name(Name { place, text }), rest))
        }
        TokenKind::String(text) => Ok((AttributeValue::String(place, text.copy()?), rest)),
        TokenKind::Integer(n) => Ok((AttributeValue::Integer(place, *n), rest)),
        TokenKind::Duration(n) => Ok((AttributeValue::Duration(place, *n), rest)),
        TokenKind::Decimal(_) => Err(Stop::Syntax(tokens.len())),
        TokenKind::Sign(_) => Err(Stop::Syntax(tokens.len())),
    }
}

// What stands behind a semicolon that may be left out.
fn past_semicolon(tokens: &[Token]) -> &[Token]
    ensures shorter { length result.now ≤ length tokens.now }
    ensures watched { (depth : ℕ) (s : List Want) (vs : List Phrase) → watch depth (Go Semicolon ∷ s) vs tokens.now ≡ watch depth s vs result.now }
{
    match behind_sign(tokens, Sign::Semicolon) {
        Some((_, rest)) => rest,
        None => tokens,
    }
}

/// Entries of an ACL in braces.
pub fn braced_entries(
    alloc: Global,
    depth: u32,
    tokens: &[Token],
) -> Result<(Vec<AclEntry>, &[Token]), Stop>
    ensures { MatchResult result
        (λ x. IsRead (Read Entries) depth tokens.now (list_of (map entry_of x.0.items)) x.1.now)
        (λ why. IsStopped (Read Entries) depth tokens.now why) }
{
    let Some((_, behind)) = behind_sign(tokens, Sign::OpenBrace) else {
        return Err(Stop::Syntax(tokens.len()));
    };
    let deeper = enter(depth, tokens.len())?;
    let mut entries = Vec::new(alloc);
    let mut rest = behind;
    'entries: loop {
        match entry_at(rest) {
            Ok(Some((entry, later))) => {
                if let Err(why) = add(&mut entries, entry) {
                    return Err(given_up(entries, why));
                }
                rest = later;
            }
            Ok(None) => return ended(entries, rest, Sign::CloseBrace),
            Err(why) => return Err(given_up(entries, why)),
        }
    }
}

// The entry at the front, if one begins there.
fn entry_at(tokens: &[Token]) -> Result<Option<(AclEntry, &[Token])>, Stop>
    ensures { MatchResult result
        (λ found. MatchOption found
        (Ends MoreEntries tokens.now)
        (λ x. CarriesAny MoreEntries tokens.now (entry_of x.0) x.1.now))
        (λ why. StopsOne (Go MoreEntries) tokens.now why) }
{
    if let Some((place, rest)) = behind_sign(tokens, Sign::Not) {
        let (entry, rest) = address(Some(place), rest)?;
        return Ok(Some((entry, rest)));
    }
    if begins_string(tokens) {
        let (entry, rest) = address(None, tokens)?;
        return Ok(Some((entry, rest)));
    }
    Ok(None)
}

fn begins_string(tokens: &[Token]) -> bool
    ensures { result ≡ first_is_string tokens.now }
{
    match split(tokens) {
        None => false,
        Some((first, _)) => match first.kind {
            TokenKind::String(_) => true,
            _ => false,
        },
    }
}

// An address, its mask and its semicolon, as an entry that is excluded where a place says so.
fn address(excluded: Option<u32>, tokens: &[Token]) -> Result<(AclEntry, &[Token]), Stop>
    ensures read { MatchResult result
        (λ x. ReadsOne (Read Address) tokens.now (address_of x.0) x.1.now)
        (λ why. StopsOne (Read Address) tokens.now why) }
    ensures same { IfOk result (λ x. x.0.excluded ≡ excluded) }
{
    let Some((first, rest)) = split(tokens) else {
        return Err(Stop::Syntax(0));
    };
    match &first.kind {
        TokenKind::String(text) => {
            let address = text.copy()?;
            let (mask, rest) = match mask_at(rest) {
                Ok(read) => read,
                Err(why) => return Err(given_up(address, why)),
            };
            let (address, rest) = ended(address, rest, Sign::Semicolon)?;
            let address_place = first.place;
            Ok((
                AclEntry {
                    excluded,
                    address_place,
                    address,
                    mask,
                },
                rest,
            ))
        }
        _ => Err(Stop::Syntax(tokens.len())),
    }
}

// The mask behind an address, if it has one.
fn mask_at(tokens: &[Token]) -> Result<(Option<Mask>, &[Token]), Stop>
    ensures { MatchResult result
        (λ x. (length x.1.now ≤ length tokens.now) × ((depth : ℕ) (s : List Want) (a : Phrase) (vs : List Phrase) →
        watch depth (Go machine.Mask ∷ s) (a ∷ vs) tokens.now ≡ watch depth s (masked a x.0 ∷ vs) x.1.now))
        (λ why. StopsOne (Go machine.Mask) tokens.now why) }
{
    let Some((_, behind)) = behind_sign(tokens, Sign::Slash) else {
        return Ok((None, tokens));
    };
    let (mask, rest) = mask_number(behind)?;
    Ok((Some(mask), rest))
}
