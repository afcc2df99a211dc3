// Words as text.
ghost use Rattle.std.specs.Prelude.{◌≡◌, ◌++◌, IfOk, OnOk};
ghost use Rattle.std.specs.Fmt.{signed_decimal};
ghost use Rattle.units.specs.Quoted.{quote_of};
ghost use Rattle.journal_text.specs.Words.{word_text, behind_word, behind, line_text as text_of_line};

use crate::Word;
use std::alloc::{AllocError, Global};
use units::{Text, push_number, quote};

fn push_signed(out: &mut Vec<u8>, alloc: Global, number: i64) -> Result<(), AllocError>
    ensures { OnOk result (out.new.items ≡ out.old.items ++ signed_decimal number) }
{
    let digits = number.to_string(alloc)?;
    out.extend_from_slice(digits.as_bytes())
}

fn push_quoted(out: &mut Vec<u8>, alloc: Global, text: &Text) -> Result<(), AllocError>
    ensures { OnOk result (out.new.items ≡ out.old.items ++ quote_of text.now) }
{
    let quoted = quote(alloc, text.bytes())?;
    out.extend_from_slice(quoted.bytes())
}

fn push_word(out: &mut Vec<u8>, alloc: Global, word: &Word) -> Result<(), AllocError>
    ensures { OnOk result (out.new.items ≡ out.old.items ++ word_text word.now) }
{
    match word {
        Word::Key(text) => out.extend_from_slice(text.bytes()),
        Word::Short(number) => push_number(out, alloc, u64::from(*number)),
        Word::Middle(number) => push_number(out, alloc, u64::from(*number)),
        Word::Long(number) => push_number(out, alloc, *number),
        Word::Signed(number) => push_signed(out, alloc, *number),
        Word::Quoted(text) => push_quoted(out, alloc, text),
    }
}

fn push_behind(out: &mut Vec<u8>, alloc: Global, word: &Word) -> Result<(), AllocError>
    ensures { OnOk result (out.new.items ≡ out.old.items ++ behind_word word.now) }
{
    out.push(b' ')?;
    push_word(out, alloc, word)
}

fn push_others(out: &mut Vec<u8>, alloc: Global, words: &[Word]) -> Result<(), AllocError>
    ensures { OnOk result (out.new.items ≡ out.old.items ++ behind words.now) }
{
    for word in words {
        push_behind(out, alloc, word)?;
    }
    Ok(())
}

/// The text of a line of these words, without its LF.
pub(crate) fn line_text(alloc: Global, words: &[Word]) -> Result<Vec<u8>, AllocError>
    ensures { IfOk result (λ text. text.items ≡ text_of_line words.now) }
{
    let mut text = Vec::new(alloc);
    if let Some((first, others)) = words.split_first() {
        push_word(&mut text, alloc, first)?;
        push_others(&mut text, alloc, others)?;
    }
    Ok(text)
}
