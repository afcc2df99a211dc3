// Words of a console's lines.
use crate::texts::bytes_of;
use cli_words::{Words, WordsError, one_list, split, write_words};
use std::alloc::{AllocError, Global};
use units::Text;

// The words of a line. None for a line that has none.
fn words_of(alloc: Global, line: &Text) -> Result<Option<Words>, AllocError> {
    match split(alloc, line) {
        Ok(words) => Ok(Some(words)),
        Err(WordsError::Syntax) => Ok(None),
        Err(WordsError::NoMemory) => Err(AllocError),
    }
}

/// How many words the line has, and these.
pub fn words_shown(alloc: Global, row: &str) -> Result<String, AllocError> {
    let line = Text::from_vec(bytes_of(alloc, row)?)?;
    let Some(words) = words_of(alloc, &line)? else {
        return format!(in alloc; "none");
    };
    let count = words.as_slice().len();
    let mut out = format!(in alloc; "{count}")?;
    for word in words.as_slice() {
        write!(out, " {word:?}")?;
    }
    Ok(out)
}

/// How many words the line has.
pub fn count_shown(alloc: Global, row: &str) -> Result<String, AllocError> {
    let line = Text::from_vec(bytes_of(alloc, row)?)?;
    let count = words_of(alloc, &line)?.map(|words| words.as_slice().len());
    format!(in alloc; "{count:?}")
}

/// The line of words before each of which a bar stands, and whether it has them again.
pub fn written_shown(alloc: Global, row: &str) -> Result<String, AllocError> {
    let words = barred(alloc, row)?;
    let line = write_words(alloc, words.as_slice())?;
    one_list(&line);
    let is_same = words_of(alloc, &line)?.is_some_and(|again| again.as_slice() == words.as_slice());
    format!(in alloc; "{line:?} {is_same}")
}

fn barred(alloc: Global, row: &str) -> Result<Vec<Text>, AllocError> {
    let mut words = Vec::new(alloc);
    for word in row.split('|').skip(1) {
        words.push(Text::from_vec(bytes_of(alloc, word)?)?)?;
    }
    Ok(words)
}
