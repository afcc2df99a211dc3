// What the line of an entry says of its reply.
ghost use Rattle.std.specs.Prelude.{◌≡◌, ◌↔◌, IfOk, IsTrue};
ghost use Rattle.journal_text.specs.Grammar.{line_words};
ghost use Rattle.journal_text.specs.Journals.{ended};
ghost use Rattle.journal_text.specs.Words.{AreWords};
ghost use Rattle.history_audit.specs.Saying.{answering_of as answering_for, asks_bans as asks, inserted_token as token_inserted, is_refused as refuses, line_saying, refused_token as token_refused};

use cache_frame::Answering;
use cache_law::{Call, Reply};
use journal_text::{Line, Said, Shown, push_line, show};
use std::alloc::{AllocError, Global};

pub(crate) fn is_refused(reply: &Shown) -> bool
    ensures { result ≡ refuses reply.now }
{
    match reply {
        Shown::Refused => true,
        _ => false,
    }
}

/// By which answer it is judged whether the entry fits.
pub(crate) fn answering_of(reply: &Shown) -> Answering
    ensures { result ≡ answering_for reply.now }
{
    if is_refused(reply) {
        Answering::Refused
    } else {
        Answering::ByLaw
    }
}

pub(crate) fn asks_bans(call: &Call) -> bool
    ensures { result ≡ asks call.now }
{
    match call {
        Call::BanList => true,
        _ => false,
    }
}

fn inserted_token(call: &Call) -> Option<u64>
    ensures { result ≡ token_inserted call.now }
{
    match call {
        Call::Insert { token, .. } => Some(*token),
        _ => None,
    }
}

/// The number of the fetch whose insertion was refused, if the entry says so.
pub(crate) fn refused_token(said: &Said) -> Option<u64>
    ensures { result ≡ token_refused said.now.call said.now.reply }
{
    if !is_refused(&said.reply) {
        return None;
    }
    inserted_token(&said.call)
}

// The text of a line that says the reply.
fn text_saying(alloc: Global, reply: Shown) -> Result<Vec<u8>, AllocError>
    ensures within { IfOk result (λ text. AreWords (line_words (line_saying reply))) }
    ensures put { IfOk result (λ text. text.items ≡ ended (line_saying reply)) }
{
    let line = Line::Entry(Said {
        caller: 0,
        moment: 0,
        call: Call::End,
        reply,
    });
    let mut text = Vec::new(alloc);
    push_line(&mut text, alloc, &line)?;
    Ok(text)
}

/// Whether both are shown alike, which their texts tell.
pub(crate) fn is_same(alloc: Global, one: Shown, other: Shown) -> Result<bool, AllocError>
    ensures { IfOk result (λ same. IsTrue same ↔ (one ≡ other)) }
{
    let first = text_saying(alloc, one)?;
    let second = text_saying(alloc, other)?;
    Ok(first.as_slice() == second.as_slice())
}
