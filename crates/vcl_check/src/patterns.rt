// The strings of a text that must be patterns, tried in its order.
ghost use Rattle.std.specs.Prelude.{◌≡◌, ◌∷◌, ◌++◌, [], List, IfOk, IfSome, OnOk, None, is_some, true, map, option_map};
ghost use Rattle.vcl_check.specs.Mentions.{Said};
ghost use Rattle.vcl_check.specs.Texts.{AreTried, MustRefuse, MayRefuse, pattern_of, pattern_texts};

use crate::mentions::{Mention, MentionKind};
use std::alloc::{AllocError, Global};
use units::Text;
use vcl_values::{Pattern, PatternError};

/// The places of the strings that are refused as patterns, and the patterns that the others are.
#[derive(Drop)]
pub struct Tried {
    pub places: Vec<u32>,
    pub patterns: Vec<Pattern>,
}

// The pattern that a text is, or none where it is refused.
fn pattern_in(alloc: Global, text: &[u8]) -> Result<Option<Pattern>, AllocError>
    ensures source { IfOk result (λ found. IfSome found (λ p. p ≡ text.now)) }
    ensures must { IfOk result (λ found. is_some found ≡ true → MustRefuse text.now → ⊥) }
    ensures may { IfOk result (λ found. found ≡ None → MayRefuse text.now) }
{
    let text = Text::of(alloc, text)?;
    match Pattern::of(alloc, &text) {
        Ok(pattern) => Ok(Some(pattern)),
        Err(PatternError::Refused) => Ok(None),
        Err(PatternError::TooLong) => Ok(None),
        Err(PatternError::NoMemory) => Err(AllocError),
    }
}

fn try_pattern(
    alloc: Global,
    places: &mut Vec<u32>,
    patterns: &mut Vec<Pattern>,
    mention: &Mention<'_>,
) -> Result<(), AllocError>
    ensures { (before : List Said) → AreTried before places.old.items patterns.old.items
        → OnOk result (AreTried (before ++ mention.now ∷ []) places.new.items patterns.new.items) }
{
    match mention.kind {
        MentionKind::Pattern => {
            match pattern_in(alloc, mention.name)? {
                Some(pattern) => patterns.push(pattern)?,
                None => places.push(mention.place)?,
            }
            Ok(())
        }
        _ => Ok(()),
    }
}

/// Tries each string that must be a pattern once.
pub fn try_patterns(alloc: Global, mentions: &[Mention<'_>]) -> Result<Tried, AllocError>
    ensures { IfOk result (λ tried. AreTried mentions.now tried.places.items tried.patterns.items) }
{
    let mut places = Vec::new(alloc);
    let mut patterns = Vec::new(alloc);
    for mention in mentions {
        try_pattern(alloc, &mut places, &mut patterns, mention)?;
    }
    Ok(Tried { places, patterns })
}

fn pattern_of<'t>(mention: &Mention<'t>) -> Option<&'t [u8]>
    ensures { option_map (λ text. text.now) result ≡ pattern_of mention.now }
{
    match mention.kind {
        MentionKind::Pattern => Some(mention.name),
        _ => None,
    }
}

/// The strings that must be patterns.
pub fn pattern_texts<'t>(
    alloc: Global,
    mentions: &[Mention<'t>],
) -> Result<Vec<&'t [u8]>, AllocError>
    ensures { IfOk result (λ texts. map (λ text. text.now) texts.items ≡ pattern_texts mentions.now) }
{
    let mut texts = Vec::new(alloc);
    for mention in mentions {
        if let Some(text) = pattern_of(mention) {
            texts.push(text)?;
        }
    }
    Ok(texts)
}
