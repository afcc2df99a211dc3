// Bans and VCLs as lines.
ghost use Rattle.std.specs.Prelude.{◌≡◌, ◌++◌, ◌∷◌, ℕ, List, IfOk, OnOk, map};
ghost use Rattle.std.specs.List.{join_with_byte};
ghost use Rattle.cli_console.specs.Listings.{ban_text, bans_text, vcl_text, vcls_text, state_text};

use cache_law::{BanLine, VclLine, VclState};
use cli_words::write_words;
use std::alloc::{AllocError, Global};
use units::{Sequence, Text, push_number};

/// The lines of a list of bans.
pub fn write_bans(alloc: Global, lines: &[BanLine]) -> Result<Text, AllocError>
    ensures { IfOk result (λ text. text ≡ bans_text lines.now) }
{
    let mut texts = Sequence::new(alloc);
    for line in lines {
        texts.push(write_ban(alloc, line)?)?;
    }
    joined(alloc, texts.as_slice())
}

/// The lines of a list of VCLs.
pub fn write_vcls(alloc: Global, lines: &[VclLine]) -> Result<Text, AllocError>
    ensures { IfOk result (λ text. text ≡ vcls_text lines.now) }
{
    let mut texts = Sequence::new(alloc);
    for line in lines {
        texts.push(write_vcl(alloc, line)?)?;
    }
    joined(alloc, texts.as_slice())
}

fn write_ban(alloc: Global, line: &BanLine) -> Result<Text, AllocError>
    ensures { IfOk result (λ text. text ≡ ban_text line.now) }
{
    let words = write_words(alloc, line.issued.ban.words.as_slice())?;
    let mut out = Vec::new(alloc);
    push_number(&mut out, alloc, line.issued.moment)?;
    out.extend_from_slice(mark(line.completed))?;
    out.extend_from_slice(words.bytes())?;
    Text::from_vec(out)
}

fn write_vcl(alloc: Global, line: &VclLine) -> Result<Text, AllocError>
    ensures { IfOk result (λ text. text ≡ vcl_text line.now) }
{
    let mut out = Vec::new(alloc);
    out.extend_from_slice(state(line.state))?;
    out.push(b' ')?;
    push_number(&mut out, alloc, line.references)?;
    out.push(b' ')?;
    out.extend_from_slice(line.name.bytes())?;
    Text::from_vec(out)
}

fn mark(completed: bool) -> &'static [u8]
    ensures { result.now ≡ mark_text completed }
{
    if completed { b" C " } else { b" - " }
}

ghost use Rattle.cli_console.specs.Listings.{mark_text};

fn state(state: VclState) -> &'static [u8]
    ensures { result.now ≡ state_text state }
{
    match state {
        VclState::Active => b"active",
        VclState::Available => b"available",
        VclState::Discarded => b"discarded",
    }
}

// The lines with LF between two.
fn joined(alloc: Global, lines: &[Text]) -> Result<Text, AllocError>
    ensures { IfOk result (λ text. text ≡ join_with_byte 10 lines.now) }
{
    let mut out = Vec::new(alloc);
    push_joined(&mut out, lines)?;
    Text::from_vec(out)
}

fn push_joined(out: &mut Vec<u8>, lines: &[Text]) -> Result<(), AllocError>
    ensures { OnOk result (out.new.items ≡ out.old.items ++ join_with_byte 10 lines.now) }
{
    let Some((first, rest)) = lines.split_first() else {
        return Ok(());
    };
    out.extend_from_slice(first.bytes())?;
    for line in rest {
        push_next(out, line)?;
    }
    Ok(())
}

// Puts LF and one more line at the end.
fn push_next(out: &mut Vec<u8>, line: &Text) -> Result<(), AllocError>
    ensures { OnOk result (out.new.items ≡ out.old.items ++ 10 ∷ line.now) }
{
    out.push(b'\n')?;
    out.extend_from_slice(line.bytes())
}
