// Writing the lines of a journal.
ghost use Rattle.std.specs.Prelude.{◌≡◌, ◌++◌, ◌∷◌, [], is_ok, if◌then◌else◌, IfOk, OnOk};
ghost use Rattle.journal_text.specs.declared.line.Line.TheVariants as lines;
ghost use Rattle.journal_text.specs.Journals.{first_line as line_of_first, entry_line as line_of_entry, first_of, ended};
ghost use Rattle.journal_text.specs.Grammar.{said_of, line_words as words_in_line};
ghost use Rattle.journal_text.specs.Words.{AreWords, line_text as text_of_words};

use crate::putting::{words_of, words_of_entry, words_of_first};
use crate::texts::line_text;
use crate::{Line, Word};
use cache_law::{Boot, Entry, Params};
use std::alloc::{AllocError, Global};
use units::Text;

/// The first line of a journal, without its LF.
pub fn first_line(alloc: Global, params: &Params, boot: &Boot) -> Result<Text, AllocError>
    ensures { IfOk result (λ text. text ≡ line_of_first params.now boot.now) }
{
    let words = words_of_first(alloc, params, boot)?;
    Text::from_vec(line_text(alloc, words.as_slice())?)
}

/// The line of an entry, without its LF.
pub fn entry_line(alloc: Global, entry: &Entry) -> Result<Text, AllocError>
    ensures { IfOk result (λ text. text ≡ line_of_entry entry.now) }
{
    let words = words_of_entry(alloc, entry)?;
    Text::from_vec(line_text(alloc, words.as_slice())?)
}

// Puts the words of a line and LF at the end.
fn push_words(out: &mut Vec<u8>, alloc: Global, words: &[Word]) -> Result<(), AllocError>
    ensures { out.new.items ≡ (if is_ok result then out.old.items ++ text_of_words words.now ++ 10 ∷ [] else out.old.items) }
{
    let mut text = line_text(alloc, words)?;
    text.push(b'\n')?;
    out.extend_from_slice(text.as_slice())
}

/// Puts the first line of a journal at the end. Where memory is wanting, the bytes are as before.
pub fn push_first(
    out: &mut Vec<u8>,
    alloc: Global,
    params: &Params,
    boot: &Boot,
) -> Result<(), AllocError>
    ensures { out.new.items ≡ (if is_ok result then out.old.items ++ ended (lines.First (first_of params.now boot.now)) else out.old.items) }
{
    let words = words_of_first(alloc, params, boot)?;
    push_words(out, alloc, words.as_slice())
}

/// Puts the line of an entry at the end. Where memory is wanting, the bytes are as before.
pub fn push_entry(out: &mut Vec<u8>, alloc: Global, entry: &Entry) -> Result<(), AllocError>
    ensures { out.new.items ≡ (if is_ok result then out.old.items ++ ended (lines.Entry (said_of entry.now)) else out.old.items) }
{
    let words = words_of_entry(alloc, entry)?;
    push_words(out, alloc, words.as_slice())
}

/// Puts a line at the end. Where memory is wanting, the bytes are as before. What is written has numbers within the range of
/// their types.
pub fn push_line(out: &mut Vec<u8>, alloc: Global, line: &Line) -> Result<(), AllocError>
    ensures within { OnOk result (AreWords (words_in_line line.now)) }
    ensures put { out.new.items ≡ (if is_ok result then out.old.items ++ ended line.now else out.old.items) }
{
    let words = words_of(alloc, line)?;
    push_words(out, alloc, words.as_slice())
}
