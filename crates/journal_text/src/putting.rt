// The words of a line.
ghost use Rattle.std.specs.Prelude.{◌≡◌, ◌++◌, IfOk, OnOk};
ghost use Rattle.journal_text.specs.Grammar.{first_words, said_of, said_words, line_words};
ghost use Rattle.journal_text.specs.Journals.{first_of};

use crate::calls::put_call;
use crate::parts::put_texts;
use crate::replies::put_shown;
use crate::showing::show;
use crate::words::Words;
use crate::{Line, Shown};
use cache_law::{Boot, Call, Entry, Params};
use std::alloc::{AllocError, Global};

fn put_first(
    words: &mut Words,
    alloc: Global,
    room: u64,
    history: u64,
    boot: &Boot,
) -> Result<(), AllocError>
    ensures { OnOk result (words.new ≡ words.old ++ first_words (record { room = room; history = history; boot = boot.now })) }
{
    words.key(alloc, b"varn")?;
    words.long(1)?;
    words.long(room)?;
    words.long(history)?;
    words.quoted(&boot.text)?;
    put_texts(words, boot.backends.as_slice())
}

// The words of the line of an entry.
fn put_said(
    words: &mut Words,
    alloc: Global,
    caller: u32,
    moment: u64,
    call: &Call,
    reply: &Shown,
) -> Result<(), AllocError>
    ensures { OnOk result (words.new ≡ words.old ++ said_words (record { caller = caller; moment = moment; call = call.now; reply = reply.now })) }
{
    words.key(alloc, b"e")?;
    words.middle(caller)?;
    words.long(moment)?;
    put_call(words, alloc, call)?;
    words.key(alloc, b"=")?;
    put_shown(words, alloc, reply)
}

/// The words of the first line.
pub(crate) fn words_of_first(
    alloc: Global,
    params: &Params,
    boot: &Boot,
) -> Result<Words, AllocError>
    ensures { IfOk result (λ words. words ≡ first_words (first_of params.now boot.now)) }
{
    let mut words = Words::new(alloc);
    put_first(&mut words, alloc, params.room, params.history, boot)?;
    Ok(words)
}

/// The words of the line of an entry.
pub(crate) fn words_of_entry(alloc: Global, entry: &Entry) -> Result<Words, AllocError>
    ensures { IfOk result (λ words. words ≡ said_words (said_of entry.now)) }
{
    let reply = show(alloc, &entry.reply)?;
    let mut words = Words::new(alloc);
    put_said(
        &mut words,
        alloc,
        entry.caller,
        entry.moment,
        &entry.call,
        &reply,
    )?;
    Ok(words)
}

/// The words of a line.
pub(crate) fn words_of(alloc: Global, line: &Line) -> Result<Words, AllocError>
    ensures { IfOk result (λ words. words ≡ line_words line.now) }
{
    let mut words = Words::new(alloc);
    match line {
        Line::First(first) => put_first(&mut words, alloc, first.room, first.history, &first.boot)?,
        Line::Entry(said) => put_said(
            &mut words,
            alloc,
            said.caller,
            said.moment,
            &said.call,
            &said.reply,
        )?,
        Line::Cut => words.key(alloc, b"cut")?,
        Line::Close => words.key(alloc, b"close")?,
    }
    Ok(words)
}
