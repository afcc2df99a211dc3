// What the programs have in common: the words that they were started with, and lines on standard error.
ghost use Rattle.std.specs.Prelude.{◌≡◌, map, drop, string_bytes, IfOk};

use std::alloc::{AllocError, Global};
use std::error::Error;
use std::io::ErrorKind;
use std::rt::Env;
use std::{env, fmt, io};
use units::Text;

/// Why the words of the command line couldn't be had.
#[derive(Clone, Copy, Debug, PartialEq, Eq)]
pub enum WordsError {
    /// A word isn't text (UTF-8), or the system didn't tell the words.
    Unreadable,
    NoMemory,
}

impl fmt::Display for WordsError {
    fn fmt<W: fmt::Write>(&self, f: &mut fmt::Formatter<W>) -> fmt::Result {
        match self {
            WordsError::Unreadable => f.write_str("the words of the command line can't be read"),
            WordsError::NoMemory => f.write_str("out of memory"),
        }
    }
}

impl Error for WordsError {}

impl From<AllocError> for WordsError {
    ghost use Rattle.system.specs.declared.command_line.WordsError.TheVariants.{NoMemory};

    ghost from_gives = { λ _ error. error ≡ NoMemory };

    fn from(_error: AllocError) -> WordsError {
        WordsError::NoMemory
    }
}

impl From<io::Error> for WordsError {
    fn from(error: io::Error) -> WordsError {
        match error.kind() {
            ErrorKind::OutOfMemory => WordsError::NoMemory,
            _ => WordsError::Unreadable,
        }
    }
}

/// The words of the command line behind the program's own name.
pub fn read_words<R: Env + AllocGlobal>(rt: &R) -> Result<Vec<Text>, WordsError> {
    let line: Vec<String> = env::args(rt)?.collect(rt.alloc())?;
    Ok(words_behind_the_first(rt.alloc(), line.as_slice())?)
}

// The words of a line but for the first, which is the program's name.
fn words_behind_the_first(alloc: Global, line: &[String]) -> Result<Vec<Text>, AllocError>
    ensures { IfOk result (λ words. words.items ≡ map string_bytes (drop 1 line.now)) }
{
    let mut words = Vec::new(alloc);
    if let [_, rest @ ..] = line {
        for word in rest {
            words.push(Text::of(alloc, word.as_bytes())?)?;
        }
    }
    Ok(words)
}
