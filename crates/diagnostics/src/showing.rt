// A place with its line.
ghost use Rattle.std.specs.Prelude.{◌≡◌, ◌+◌, ◌++◌, ◌∷◌, [], length, map, take, drop, IfOk, OnOk};
ghost use Rattle.diagnostics.specs.Places.{IsShown, continues as one_continues, filler as one_filler, fillers, is_control as one_control, shown_byte};

use crate::lines::{behind_feed, feeds_in, until_feed};
use std::alloc::{AllocError, Global};

/// The number of a place's line and that of its character in the line, each counted from 1; the line; and what stands under it, with a
/// caret under the place.
#[derive(Drop)]
pub struct Shown {
    pub line: usize,
    pub column: usize,
    pub text: Vec<u8>,
    pub caret: Vec<u8>,
}

// Whether the byte is behind the first of a character.
fn continues(byte: u8) -> bool
    ensures { result ≡ one_continues byte }
{
    (128..192).contains(&byte)
}

// What stands under the character, so that it is as wide.
fn filler(byte: u8) -> u8
    ensures { result ≡ one_filler byte }
{
    if byte == b'\t' { byte } else { b' ' }
}

// What stands under the characters.
fn fillers(alloc: Global, bytes: &[u8]) -> Result<Vec<u8>, AllocError>
    ensures { IfOk result (λ filled. filled.items ≡ fillers bytes.now) }
{
    let mut filled = Vec::new(alloc);
    for byte in bytes {
        if !continues(*byte) {
            filled.push(filler(*byte))?;
        }
    }
    Ok(filled)
}

fn is_control(byte: u8) -> bool
    ensures { result ≡ one_control byte }
{
    byte < b' ' && byte != b'\t' || byte == 127
}

// Puts the bytes at the end, with blanks for control bytes.
fn push_shown(line: &mut Vec<u8>, bytes: &[u8]) -> Result<(), AllocError>
    ensures { OnOk result (line.new.items ≡ line.old.items ++ map shown_byte bytes.now) }
{
    for byte in bytes {
        line.push(if is_control(*byte) { b' ' } else { *byte })?;
    }
    Ok(())
}

/// Shows a place of a text; one behind the end is at the end.
pub fn show(alloc: Global, text: &[u8], place: usize) -> Result<Shown, AllocError>
    ensures { IfOk result (IsShown text.now place) }
{
    let (before, behind) = text.split_at(place.min(text.len()));
    let front = behind_feed(before);
    let mut line = Vec::new(alloc);
    push_shown(&mut line, front)?;
    push_shown(&mut line, until_feed(behind))?;
    let mut caret = fillers(alloc, front)?;
    let column = caret.len() + 1;
    caret.push(b'^')?;
    Ok(Shown {
        line: feeds_in(before) + 1,
        column,
        text: line,
        caret,
    })
}
