// The words of a line, and where they stand.
ghost use Rattle.std.specs.Prelude.{◌≡◌, IfOk};
ghost use Rattle.journal_reader.specs.Fronts.{AreFront, padded};

use crate::word::read_word;
use journal_text::Word;
use std::alloc::{AllocError, Global};

/// The words of a line, as many as there are, and the column of each and of what is behind them.
#[derive(Drop)]
pub(crate) struct Front {
    pub words: Vec<Word>,
    pub columns: Vec<usize>,
}

fn padded_line(alloc: Global, text: &[u8]) -> Result<Vec<u8>, AllocError>
    ensures { IfOk result (λ line. line.items ≡ padded text.now) }
{
    let mut line = Vec::new(alloc);
    line.extend_from_slice(text)?;
    line.push(b' ')?;
    Ok(line)
}

#[tactic(auto, using(crate::proofs::Going::going_begins, crate::proofs::Going::shorter))]
fn words_of(alloc: Global, line: &[u8]) -> Result<Front, AllocError>
    ensures { IfOk result (λ front. AreFront line.now front.words.items front.columns.items) }
{
    let mut words = Vec::new(alloc);
    let mut columns = Vec::new(alloc);
    let mut rest = line;
    'words: while let Some((word, behind)) = read_word(alloc, rest)? {
        words.push(word)?;
        columns.push(line.len() - rest.len() + 1)?;
        rest = behind;
    }
    columns.push(line.len() - rest.len() + 1)?;
    Ok(Front { words, columns })
}

/// The words of a text.
pub(crate) fn front_of(alloc: Global, text: &[u8]) -> Result<Front, AllocError>
    ensures { IfOk result (λ front. AreFront (padded text.now) front.words.items front.columns.items) }
{
    let line = padded_line(alloc, text)?;
    words_of(alloc, line.as_slice())
}
