// What stands at the top of a text.
#![tactic(auto, using(crate::proofs::Reading::reading))]

ghost use Rattle.std.specs.Prelude.{◌≡◌, ◌∷◌, [], ◌<◌, ℕ, List, map, IfOk, IfErr, MatchOption, MatchResult, length};
ghost use Rattle.vcl_tree.specs.Phrase.{Phrase, At, Nothing, Acl, Backend, Bound, Import, NoBackend, Probe, Sub, list_of};
ghost use Rattle.vcl_tree.specs.TreeView.{item_of};
ghost use Rattle.vcl_tree.specs.declared.token.Sign.TheVariants as sign;
ghost use Rattle.vcl_parse.specs.Machine.{Want, Read, Go, Join, Take, AnyName, NewName, Attributes, BackendBody, Block, Entries, MoreItems, watch};
ghost use Rattle.vcl_parse.specs.Machine as machine;
ghost use Rattle.vcl_parse.specs.Steps.{IsReadAll, IsStoppedAll, IsStopped, Stops, Ends, CarriesOn};

use crate::attributes::{braced_attributes, braced_entries};
use crate::lists::add;
use crate::signs::{any_name, behind_sign, ended, new_name, split};
use crate::starts::{ItemWord, item_word};
use crate::statements::block;
use crate::stop::{Stop, given_up};
use std::alloc::Global;
use units::Sequence;
use vcl_tree::{Item, Sign, Token, TokenKind, Word};

/// The items of the tokens, to their end.
pub fn all_items(alloc: Global, tokens: &[Token]) -> Result<Vec<Item>, Stop>
    ensures read { IfOk result (λ items. (s : List Want) (vs : List Phrase) →
        watch 0 (Go MoreItems ∷ s) (Nothing ∷ vs) tokens.now ≡ watch 0 s (list_of (map item_of items.items) ∷ vs) []) }
    ensures stopped { IfErr result (λ why. (vs : List Phrase) → Stops why (watch 0 (Go MoreItems ∷ []) (Nothing ∷ vs) tokens.now)) }
{
    let mut items = Vec::new(alloc);
    let mut rest = tokens;
    'items: loop {
        match item_at(alloc, rest) {
            Ok(Some((item, later))) => {
                if let Err(why) = add(&mut items, item) {
                    return Err(given_up(items, why));
                }
                rest = later;
            }
            Ok(None) => break,
            Err(why) => return Err(given_up(items, why)),
        }
    }
    if rest.is_empty() {
        Ok(items)
    } else {
        Err(given_up(items, Stop::Syntax(rest.len())))
    }
}

// The item at the front, if one begins there.
fn item_at(alloc: Global, tokens: &[Token]) -> Result<Option<(Item, &[Token])>, Stop>
    ensures { MatchResult result
        (λ found. MatchOption found
        (Ends MoreItems tokens.now)
        (λ x. CarriesOn MoreItems 0 tokens.now (item_of x.0) x.1.now))
        (λ why. IsStopped (Go MoreItems) 0 tokens.now why) }
{
    let Some((first, rest)) = split(tokens) else {
        return Ok(None);
    };
    match &first.kind {
        TokenKind::Word(word, _) => match item_word(*word) {
            ItemWord::Import => Ok(Some(import(first.place, rest)?)),
            ItemWord::Backend => Ok(Some(backend(alloc, first.place, rest)?)),
            ItemWord::Acl => Ok(Some(acl(alloc, first.place, rest)?)),
            ItemWord::Probe => Ok(Some(probe(alloc, first.place, rest)?)),
            ItemWord::Sub => Ok(Some(sub(alloc, first.place, rest)?)),
            ItemWord::Nothing => Ok(None),
        },
        TokenKind::Name(_)
        | TokenKind::Integer(_)
        | TokenKind::Decimal(_)
        | TokenKind::Duration(_)
        | TokenKind::String(_)
        | TokenKind::Sign(_) => Ok(None),
    }
}

fn import(place: u32, tokens: &[Token]) -> Result<(Item, &[Token]), Stop>
    ensures { MatchResult result
        (λ x. IsReadAll (AnyName ∷ Take sign.Semicolon ∷ Join Import ∷ []) 0 (At place) tokens.now (item_of x.0) x.1.now)
        (λ why. IsStoppedAll (AnyName ∷ Take sign.Semicolon ∷ Join Import ∷ []) 0 (At place) tokens.now why) }
{
    let (name, rest) = any_name(tokens)?;
    ended(Item::Import(place, name), rest, Sign::Semicolon)
}

fn backend(alloc: Global, place: u32, tokens: &[Token]) -> Result<(Item, &[Token]), Stop>
    ensures { MatchResult result
        (λ x. IsReadAll (NewName ∷ Read BackendBody ∷ []) 0 (At place) tokens.now (item_of x.0) x.1.now)
        (λ why. IsStoppedAll (NewName ∷ Read BackendBody ∷ []) 0 (At place) tokens.now why) }
{
    let (name, rest) = new_name(tokens)?;
    if let Some(behind) = behind_none(rest) {
        return ended(Item::NoBackend(place, name), behind, Sign::Semicolon);
    }
    match braced_attributes(alloc, 0, rest) {
        Ok((attributes, rest)) => Ok((
            Item::Backend(place, name, Sequence::from_vec(attributes)),
            rest,
        )),
        Err(why) => Err(given_up(name, why)),
    }
}

// What stands behind the word `none`, if it comes first.
fn behind_none(tokens: &[Token]) -> Option<&[Token]>
    ensures { MatchOption result
        ((depth : ℕ) (s : List Want) (vs : List Phrase) →
        watch depth (Read BackendBody ∷ s) vs tokens.now ≡ watch depth (Read Attributes ∷ Join Bound ∷ Join Backend ∷ s) vs tokens.now)
        (λ rest. (length rest.now < length tokens.now) × ((depth : ℕ) (s : List Want) (vs : List Phrase) →
        watch depth (Read BackendBody ∷ s) vs tokens.now ≡ watch depth (Take sign.Semicolon ∷ Join NoBackend ∷ s) vs rest.now)) }
{
    let (first, rest) = split(tokens)?;
    match &first.kind {
        TokenKind::Word(word, _) => { if is_none(*word) { Some(rest) } else { None } }
        TokenKind::Name(_)
        | TokenKind::Integer(_)
        | TokenKind::Decimal(_)
        | TokenKind::Duration(_)
        | TokenKind::String(_)
        | TokenKind::Sign(_) => None,
    }
}

fn is_none(word: Word) -> bool
    ensures { result ≡ machine.is_none word }
{
    matches!(word, Word::None)
}

fn acl(alloc: Global, place: u32, tokens: &[Token]) -> Result<(Item, &[Token]), Stop>
    ensures { MatchResult result
        (λ x. IsReadAll (NewName ∷ Read Entries ∷ Join Bound ∷ Join Acl ∷ []) 0 (At place) tokens.now (item_of x.0) x.1.now)
        (λ why. IsStoppedAll (NewName ∷ Read Entries ∷ Join Bound ∷ Join Acl ∷ []) 0 (At place) tokens.now why) }
{
    let (name, rest) = new_name(tokens)?;
    match braced_entries(alloc, 0, rest) {
        Ok((entries, rest)) => Ok((Item::Acl(place, name, Sequence::from_vec(entries)), rest)),
        Err(why) => Err(given_up(name, why)),
    }
}

fn probe(alloc: Global, place: u32, tokens: &[Token]) -> Result<(Item, &[Token]), Stop>
    ensures { MatchResult result
        (λ x. IsReadAll (NewName ∷ Read Attributes ∷ Join Bound ∷ Join Probe ∷ []) 0 (At place) tokens.now (item_of x.0) x.1.now)
        (λ why. IsStoppedAll (NewName ∷ Read Attributes ∷ Join Bound ∷ Join Probe ∷ []) 0 (At place) tokens.now why) }
{
    let (name, rest) = new_name(tokens)?;
    match braced_attributes(alloc, 0, rest) {
        Ok((attributes, rest)) => Ok((
            Item::Probe(place, name, Sequence::from_vec(attributes)),
            rest,
        )),
        Err(why) => Err(given_up(name, why)),
    }
}

fn sub(alloc: Global, place: u32, tokens: &[Token]) -> Result<(Item, &[Token]), Stop>
    ensures { MatchResult result
        (λ x. IsReadAll (NewName ∷ Read Block ∷ Join Bound ∷ Join Sub ∷ []) 0 (At place) tokens.now (item_of x.0) x.1.now)
        (λ why. IsStoppedAll (NewName ∷ Read Block ∷ Join Bound ∷ Join Sub ∷ []) 0 (At place) tokens.now why) }
{
    let (name, rest) = new_name(tokens)?;
    match block(alloc, 0, rest) {
        Ok((block, rest)) => Ok((Item::Sub(place, name, block), rest)),
        Err(why) => Err(given_up(name, why)),
    }
}
