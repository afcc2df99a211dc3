// A whole text.
ghost use Rattle.std.specs.Prelude.{◌≡◌, ◌≤◌, ◌∷◌, [], ℕ, List, length, IfOk, IfErr, MatchResult, map};
ghost use Rattle.vcl_tree.specs.declared.token.Token.{Token};
ghost use Rattle.vcl_tree.specs.TreeView.{items_of, item_of};
ghost use Rattle.vcl_tree.specs.declared.item.Tree as tree;
ghost use Rattle.vcl_tree.specs.declared.error.Refusal.{Refusal};
ghost use Rattle.vcl_tree.specs.Phrase.{list_of};
ghost use Rattle.vcl_tokens.specs.Reading.{Reads, text_limit};
ghost use Rattle.vcl_parse.specs.Machine.{Accepted};
ghost use Rattle.vcl_parse.specs.Steps.{Stops};
ghost use Rattle.vcl_parse.specs.Parsing.{IsTree, IsWrong, IsFault, Good, Bad, head_of, behind_vcl, is_vcl_word};
ghost use Rattle.vcl_parse.specs.Telling.{reading, told, place_at};
ghost use Rattle.vcl_tree.specs.Grammar.{version_written};

use crate::items::all_items;
use crate::signs::{expect, split};
use crate::stop::Stop;
use std::alloc::Global;
use units::{Sequence, Text};
use vcl_tokens::tokens;
use vcl_tree::{Item, Refusal, Sign, Token, TokenKind, Tree, VclError, Version, Word};

/// The tree of a text. A text over its limit is refused as too long, else at its first fault of tokens, else for a
/// version other than 4.0 and 4.1, else at the first token at which no text of the language goes on, or at which
/// blocks and parentheses would nest more than 64 deep; where the text ends too early, at its length.
#[tactic(auto, using(crate::proofs::Files::fault_told))]
pub fn parse(alloc: Global, text: &Text) -> Result<Tree, VclError>
    ensures tree { IfOk result (λ tree. (tokens : List Token) × Reads 0 text.now tokens × IsTree tokens tree × (length text.now ≤ text_limit)) }
    ensures fault { IfErr result (IsFault text.now) }
{
    let found = tokens(alloc, text)?;
    let end = text.bytes().len() as u32;
    let (version, rest) = match head(end, found.as_slice()) {
        Ok(head) => head,
        Err(place) => {
            return Err(VclError::Refused {
                kind: Refusal::Version,
                place,
            });
        }
    };
    match body(alloc, rest) {
        Ok(items) => Ok(Tree {
            version,
            items: Sequence::from_vec(items),
        }),
        Err(why) => Err(refusal(end, rest, why)),
    }
}

// The version and what stands behind it, or the place at which it is missing.
fn head(end: u32, tokens: &[Token]) -> Result<(Version, &[Token]), u32>
    ensures { MatchResult result
        (λ x. head_of end tokens.now ≡ Good x.0 x.1.now)
        (λ place. head_of end tokens.now ≡ Bad place) }
{
    let Some((first, rest)) = split(tokens) else {
        return Err(0);
    };
    match &first.kind {
        TokenKind::Word(word, _) => {
            if is_vcl(*word) {
                version_at(end, rest)
            } else {
                Err(0)
            }
        }
        TokenKind::Name(_)
        | TokenKind::Integer(_)
        | TokenKind::Decimal(_)
        | TokenKind::Duration(_)
        | TokenKind::String(_)
        | TokenKind::Sign(_) => Err(0),
    }
}

fn is_vcl(word: Word) -> bool
    ensures { result ≡ is_vcl_word word }
{
    matches!(word, Word::Vcl)
}

fn version_at(end: u32, tokens: &[Token]) -> Result<(Version, &[Token]), u32>
    ensures { MatchResult result
        (λ x. behind_vcl end tokens.now ≡ Good x.0 x.1.now)
        (λ place. behind_vcl end tokens.now ≡ Bad place) }
{
    let Some((first, rest)) = split(tokens) else {
        return Err(end);
    };
    match &first.kind {
        TokenKind::Decimal(digits) => match version(digits.bytes()) {
            Some(version) => Ok((version, rest)),
            None => Err(first.place),
        },
        TokenKind::Name(_)
        | TokenKind::Word(_, _)
        | TokenKind::Integer(_)
        | TokenKind::Duration(_)
        | TokenKind::String(_)
        | TokenKind::Sign(_) => Err(first.place),
    }
}

fn version(digits: &[u8]) -> Option<Version>
    ensures { result ≡ version_written digits.now }
{
    if digits == b"4.0".as_slice() {
        return Some(Version::Four);
    }
    if digits == b"4.1".as_slice() {
        return Some(Version::FourOne);
    }
    None
}

// A semicolon and items, to the end of the tokens.
fn body(alloc: Global, tokens: &[Token]) -> Result<Vec<Item>, Stop>
    ensures read { IfOk result (λ items. reading tokens.now ≡ Accepted (list_of (map item_of items.items) ∷ [])) }
    ensures stopped { IfErr result (λ why. Stops why (reading tokens.now)) }
{
    let rest = expect(tokens, Sign::Semicolon)?;
    all_items(alloc, rest)
}

// The refusal of the tokens, of which so many are left where reading stops.
fn refusal(end: u32, tokens: &[Token], why: Stop) -> VclError
    ensures { result ≡ told end tokens.now why }
{
    match why {
        Stop::NoMemory => VclError::NoMemory,
        Stop::Syntax(left) => VclError::Refused {
            kind: Refusal::Syntax,
            place: place(end, tokens, left),
        },
        Stop::TooDeep(left) => VclError::Refused {
            kind: Refusal::TooDeep,
            place: place(end, tokens, left),
        },
    }
}

fn place(end: u32, tokens: &[Token], left: usize) -> u32
    ensures { result ≡ place_at end tokens.now left }
{
    match split(tokens.split_at(tokens.len().saturating_sub(left)).1) {
        Some((first, _)) => first.place,
        None => end,
    }
}

/// A text has at most one tree, as clauses see it: the version and the items are the same. Tokens that have a tree
/// have no fault, and tokens have at most one fault.
pub fn one_tree()
    ensures one { (text : List ℕ) (tokens others : List Token) (a b : tree.Tree) → Reads 0 text tokens → Reads 0 text others →
        IsTree tokens a → IsTree others b → (a.version ≡ b.version) × (items_of a.items ≡ items_of b.items) }
    ensures no_fault { (end : ℕ) (tokens : List Token) (a : tree.Tree) (why : Refusal) (place : ℕ) →
        IsTree tokens a → IsWrong end tokens why place → ⊥ }
    ensures one_fault { (end : ℕ) (tokens : List Token) (why other : Refusal) (place elsewhere : ℕ) →
        IsWrong end tokens why place → IsWrong end tokens other elsewhere → (why ≡ other) × (place ≡ elsewhere) }
{}
