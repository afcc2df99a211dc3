// Cutting a line into words.
ghost use Rattle.std.specs.Prelude.{◌≡◌, ℕ, List, IfOk, IfErr, MatchResult, MatchOption, IfSome, IsTrue, ◌↔◌, [], ◌<◌, ◌≤◌, length};
ghost use Rattle.cli_words.specs.Words.{HasWords, ReadsWords, after_blanks};
ghost use Rattle.cli_words.specs.Errors.{IsErrorOf};

use crate::word::{behind_word, is_blank_byte, read_word};
use std::alloc::{AllocError, Global};
use std::error::Error;
use std::fmt;
use units::{Sequence, Text};

/// A line has at most so many bytes.
pub const LINE_LIMIT: usize = 1_048_576;

/// The words of a line, each as the bytes that it stands for.
pub type Words = Sequence<Text>;

/// Why a line has no words.
#[derive(Drop, Debug)]
pub enum WordsError {
    /// An escape or a quoted text isn't one, or the line is over its limit of 1,048,576 bytes.
    Syntax,
    NoMemory,
}

impl fmt::Display for WordsError {
    fn fmt<W: fmt::Write>(&self, f: &mut fmt::Formatter<W>) -> fmt::Result {
        match self {
            WordsError::Syntax => f.write_str("the line has no words"),
            WordsError::NoMemory => f.write_str("out of memory"),
        }
    }
}

impl Error for WordsError {}

impl From<AllocError> for WordsError {
    ghost use Rattle.cli_words.specs.declared.line.WordsError.TheVariants.{NoMemory};

    ghost from_gives = { λ _ error. error ≡ NoMemory };

    fn from(_error: AllocError) -> WordsError {
        WordsError::NoMemory
    }
}

/// The words of a line, which are separated by spaces and tabs. A word that begins with `"` is a quoted text, and
/// ends at its quote; other words may hold the same escapes. The work grows with the bytes.
pub fn split(alloc: Global, line: &Text) -> Result<Words, WordsError>
    // What is read are the words that the line has.
    ensures words { IfOk result (λ words. HasWords line.now words) }
    // A line is refused only if it has none, and memory is wanting only if it has some.
    ensures error { IfErr result (λ error. IsErrorOf line.now error) }
    // The words that a line has are read, unless memory runs out.
    ensures only { (words : List (List ℕ)) → HasWords line.now words → MatchResult result (λ read. read ≡ words) (λ error. error ≡ WordsError.NoMemory) }
{
    split_line(alloc, line.bytes())
}

fn split_line(alloc: Global, line: &[u8]) -> Result<Words, WordsError>
    ensures words { IfOk result (λ words. HasWords line.now words) }
    ensures error { IfErr result (λ error. IsErrorOf line.now error) }
    ensures only { (words : List (List ℕ)) → HasWords line.now words → MatchResult result (λ read. read ≡ words) (λ error. error ≡ WordsError.NoMemory) }
{
    if line.len() > LINE_LIMIT || !are_words(line) {
        return Err(WordsError::Syntax);
    }
    match words_of(alloc, line) {
        Ok(words) => Ok(words),
        Err(error) => Err(WordsError::from(error)),
    }
}

// Whether the bytes are words.
fn are_words(bytes: &[u8]) -> bool
    ensures { IsTrue result ↔ ((words : List (List ℕ)) × ReadsWords words bytes.now) }
{
    let mut rest = bytes;
    'words: while let Some(start) = skip_blanks(rest) {
        match behind_word(start) {
            Some(behind) => rest = behind,
            None => return false,
        }
    }
    true
}

// The words that the bytes are.
fn words_of(alloc: Global, bytes: &[u8]) -> Result<Words, AllocError>
    requires { (words : List (List ℕ)) × ReadsWords words bytes.now }
    ensures { IfOk result (λ words. ReadsWords words bytes.now) }
{
    let mut words = Sequence::new(alloc);
    let mut rest = bytes;
    'words: while let Some(start) = skip_blanks(rest) {
        let found = read_word(alloc, start)?;
        let Some((word, behind)) = found else {
            unreachable!();
        };
        words.push(word)?;
        rest = behind;
    }
    Ok(words)
}

// The bytes from the first that is no blank on. None where there are blanks alone.
fn skip_blanks(bytes: &[u8]) -> Option<&[u8]>
    ensures start { MatchOption result (after_blanks bytes.now ≡ []) (λ start. after_blanks bytes.now ≡ start.now) }
    ensures some { IfSome result (λ start. 0 < length start.now) }
    ensures within { IfSome result (λ start. length start.now ≤ length bytes.now) }
{
    for (place, byte) in bytes.iter().enumerate() {
        if !is_blank_byte(*byte) {
            return Some(&bytes[place..]);
        }
    }
    None
}

/// A line has at most one list of words.
pub fn one_list(line: &Text)
    ensures { (v w : List (List ℕ)) → HasWords line.now v → HasWords line.now w → v ≡ w }
{}
