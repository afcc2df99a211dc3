// Patterns over bytes.
ghost use Rattle.std.specs.Prelude.{◌≡◌, ◌<◌, ◌≤◌, ◌-◌, take, ◌⊎◌, ◌↔◌, length, is_some, IfOk, OnOk, IsErrOf, if◌then◌else◌};
ghost use Rattle.vcl_values.specs.Readings.{IsAccepted, HasNoReading, NestsTooDeep, first_found};
ghost use Rattle.vcl_values.specs.Replacements.{replaced, written};
ghost use Rattle.vcl_values.specs.Captured.{captured};
ghost use Rattle.vcl_values.specs.Operators.{Gives, text_within, text_limit};
ghost use Rattle.vcl_values.specs.Cuts.{IsCutFrom};
ghost use Rattle.regex.specs.Bytes.{regex_source};
ghost use Rattle.vcl_values.specs.ReadHere.{IsReadHere};

use crate::replacement::expanded;
use crate::sums::{MAX_TEXT, ValueError};
use regex::bytes::{Captures, Regex};
use std::alloc::{AllocError, Global};
use std::error::Error;
use std::fmt;
use std::marker::Model;
use units::Text;

/// The most bytes of a pattern.
pub const MAX_PATTERN: usize = 4096;

/// Why a text is no pattern here.
#[derive(Clone, Copy, Debug, PartialEq, Eq)]
pub enum PatternError {
    /// The grammar of `regex` has no reading for the text, or the text nests too deep.
    Refused,
    /// The text is over 4,096 bytes.
    TooLong,
    NoMemory,
}

impl fmt::Display for PatternError {
    fn fmt<W: fmt::Write>(&self, f: &mut fmt::Formatter<W>) -> fmt::Result {
        match self {
            PatternError::Refused => write!(f, "no pattern"),
            PatternError::TooLong => write!(f, "a pattern over 4,096 bytes"),
            PatternError::NoMemory => write!(f, "out of memory"),
        }
    }
}

impl Error for PatternError {}

/// A regular expression over bytes with Unicode classes, in the syntax of the crate `regex`. Clauses see its
/// text.
#[derive(Drop)]
pub struct Pattern {
    regex: Regex,
}

impl Model for Pattern {
    ghost use Rattle.std.specs.Prelude.{List, ℕ};
    ghost use Rattle.regex.specs.Bytes.{regex_source};
    ghost use Rattle.vcl_values.specs.ReadHere.{IsReadHere};

    ghost Value = { List ℕ };

    ghost view = { λ p. regex_source p.regex };

    ghost invariant = { λ p. IsReadHere p.regex };
}

impl Pattern {
    /// The pattern that the text is. Want of memory is also the answer for a pattern that is too large to build.
    pub fn of(alloc: Global, text: &Text) -> Result<Pattern, PatternError>
        ensures source { IfOk result (λ p. p ≡ text.now) }
        ensures accepted { OnOk result (IsAccepted text.now) }
        ensures too_long { IsErrOf result PatternError.TooLong ↔ (4096 < length text.now) }
        ensures refused { IsErrOf result PatternError.Refused → HasNoReading text.now ⊎ NestsTooDeep text.now }
        ensures no_reading { length text.now ≤ 4096 → HasNoReading text.now
            → IsErrOf result PatternError.Refused ⊎ IsErrOf result PatternError.NoMemory }
    {
        if text.bytes().len() > MAX_PATTERN {
            return Err(PatternError::TooLong);
        }
        let Ok(source) = str::from_utf8(text.bytes()) else {
            return Err(PatternError::Refused);
        };
        match Regex::new(alloc, source) {
            Ok(regex) => Ok(Pattern { regex }),
            Err(regex::Error::Syntax(_)) => Err(PatternError::Refused),
            Err(_) => Err(PatternError::NoMemory),
        }
    }

    /// Whether the pattern matches somewhere in the text.
    pub fn is_match(&self, alloc: Global, text: &Text) -> Result<bool, AllocError>
        ensures { IfOk result (λ found. found ≡ is_some (first_found self.now text.now)) }
    {
        has_match(alloc, &self.regex, text.bytes())
    }

    /// The text with its first match, or all matches, replaced. In `by`, `\0` to `\9` are groups, `\\` is `\`, and
    /// another `\` stays. What would be over 65,536 bytes is TooLong, and no more than that and the text is made for it.
    pub fn replace(
        &self,
        alloc: Global,
        text: &Text,
        by: &Text,
        all: bool,
    ) -> Result<Text, ValueError>
        ensures { Gives result (text_within (replaced self.now text.now by.now all)) }
    {
        let bytes = cut_replaced(alloc, &self.regex, text.bytes(), by.bytes(), all)?;
        if bytes.len() > MAX_TEXT {
            return Err(ValueError::TooLong);
        }
        Ok(Text::from_vec(bytes)?)
    }
}

fn has_match(alloc: Global, regex: &Regex, text: &[u8]) -> Result<bool, AllocError>
    requires { IsReadHere regex.now }
    ensures { IfOk result (λ found. found ≡ is_some (first_found (regex_source regex.now) text.now)) }
{
    let mut matcher = regex.matcher(alloc)?;
    Ok(matcher.is_match(text))
}

// The text with matches replaced, where all that is put in their places is cut behind as many bytes as a text may have and
// one more: so it is whole where it is within the limit, and over the limit where the whole is.
fn cut_replaced(
    alloc: Global,
    regex: &Regex,
    text: &[u8],
    by: &[u8],
    all: bool,
) -> Result<Vec<u8>, AllocError>
    requires { IsReadHere regex.now }
    ensures { IfOk result (λ out. IsCutFrom text_limit (replaced (regex_source regex.now) text.now by.now all) out.items) }
{
    let mut matcher = regex.matcher(alloc)?;
    let mut room = MAX_TEXT + 1;
    let out = matcher.replacen_with(
        alloc,
        text,
        limit_of(all),
        move |captures: &Captures<'_, '_>|
            ensures part { IfOk result (λ part. part.items ≡ take room.entry (written (captured captures.now) by.entry.now)) }
            ensures left { IfOk result (λ part. room.exit ≡ room.entry - length part.items) }
        {
            let part = expanded(alloc, captures, by, room)?;
            room -= part.len();
            Ok(part)
        },
    )?;
    Ok(out)
}

// How many matches are replaced at most, 0 for all.
fn limit_of(all: bool) -> usize
    ensures { result ≡ (if all then 0 else 1) }
{
    if all { 0 } else { 1 }
}
