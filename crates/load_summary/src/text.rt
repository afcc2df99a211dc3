// A summary as text.
ghost use Rattle.std.specs.Prelude.{◌≡◌, ◌++◌, IfOk, OnOk};
ghost use Rattle.load_summary.specs.Texts.{text_of, told};

use crate::Summary;
use std::alloc::{AllocError, Global};

// Puts a line with a word and a number behind the text.
fn push_told(text: &mut Vec<u8>, alloc: Global, word: &[u8], number: u128) -> Result<(), AllocError>
    ensures { OnOk result (text.new.items ≡ text.old.items ++ told word.now number) }
{
    text.extend_from_slice(word)?;
    text.extend_from_slice(b" ")?;
    text.extend_from_slice(number.to_string(alloc)?.as_bytes())?;
    text.extend_from_slice(b"\n")
}

/// The lines of a summary, each a word and a number.
pub fn summary_text(alloc: Global, summary: &Summary) -> Result<Vec<u8>, AllocError>
    ensures { IfOk result (λ text. text.items ≡ text_of summary.now) }
{
    let mut text = Vec::new(alloc);
    push_told(&mut text, alloc, b"steps", u128::from(summary.steps))?;
    push_told(&mut text, alloc, b"requests", summary.requests as u128)?;
    push_told(&mut text, alloc, b"hits", summary.hits as u128)?;
    push_told(&mut text, alloc, b"misses", summary.misses as u128)?;
    push_told(&mut text, alloc, b"waits", summary.waits as u128)?;
    push_told(&mut text, alloc, b"bans", summary.bans as u128)?;
    push_told(&mut text, alloc, b"swept", summary.swept)?;
    push_told(&mut text, alloc, b"200", summary.of_200 as u128)?;
    push_told(&mut text, alloc, b"other", summary.of_others as u128)?;
    Ok(text)
}
