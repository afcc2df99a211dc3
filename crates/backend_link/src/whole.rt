// A reply as all its bytes.
ghost use Rattle.std.specs.Prelude.{◌≡◌, ◌≤◌, ℕ, List, length, IfOk};
ghost use Rattle.backend_link.specs.Said.{SaysBody, SaysBehind, SaysAt};
ghost use Rattle.backend_link.specs.WholeReplies.{IsBehindAll, IsReplyTo};

use crate::interim::{pass_interim, read_head};
use crate::limits::MAX_BODY;
use crate::{answered, is_interim};
use http_bodies::{BodyError, Framing, frame, kind_of_reply, read_body};
use http_heads::{Exchange, ResponseHead};
use message_reader::Stop;
use std::alloc::{AllocError, Global};
use units::Text;

// The head with its body, which has this framing; or why there is no body.
fn read_framed(
    alloc: Global,
    head: ResponseHead,
    framing: Framing,
    text: &[u8],
) -> Result<Result<(ResponseHead, Text), Stop>, AllocError>
    ensures { IfOk result (λ reply. SaysBody framing head text.now reply) }
{
    match read_body(alloc, framing, MAX_BODY, text) {
        Ok((body, _)) => Ok(Ok((head, body))),
        Err(BodyError::NoMemory) => Err(AllocError),
        Err(BodyError::Early) => Ok(Err(Stop::Early)),
        Err(BodyError::TooLarge) => Ok(Err(Stop::TooLarge)),
        Err(_) => Ok(Err(Stop::BadBody)),
    }
}

// The head with what stands behind it, or why that is no body.
fn read_behind(
    alloc: Global,
    head: ResponseHead,
    count: usize,
    to_head: bool,
    text: &[u8],
) -> Result<Result<(ResponseHead, Text), Stop>, AllocError>
    requires { count ≤ length text.now }
    ensures { IfOk result (λ reply. SaysBehind to_head text.now reply head count) }
{
    match frame(&head.fields, kind_of_reply(head.status, to_head)) {
        Ok(framing) => read_framed(alloc, head, framing, &text[count..]),
        Err(_) => Ok(Err(Stop::BadBody)),
    }
}

// The reply behind all interim ones, or why it isn't read.
fn read_final(
    alloc: Global,
    text: &[u8],
    to_head: bool,
) -> Result<Result<(ResponseHead, Text), Stop>, AllocError>
    ensures { IfOk result (λ reply. (bytes : List ℕ) (passed : ℕ) → IsBehindAll bytes text.now passed → SaysAt to_head passed text.now reply) }
{
    let (head, count) = match read_head(alloc, text)? {
        Ok(found) => found,
        Err(stop) => return Ok(Err(stop)),
    };
    if is_interim(head.status) {
        return Ok(Err(Stop::BadHead));
    }
    read_behind(alloc, head, count, to_head, text)
}

/// What the bytes of a reply and their end come to, where the request was HEAD or not: the first reply that isn't
/// interim, behind at most eight interim ones, with a body of at most 8,388,608 bytes; or a fault: 4 the bytes end
/// inside the reply, 5 its head and 6 its body are refused, 7 it is too large. 101 and a ninth interim reply are
/// refused as heads.
pub fn read_reply(alloc: Global, bytes: &[u8], to_head: bool) -> Result<Exchange, AllocError>
    ensures { IfOk result (IsReplyTo to_head bytes.now) }
{
    let (text, _) = pass_interim(alloc, bytes)?;
    let outcome = read_final(alloc, text, to_head)?;
    Ok(answered(outcome))
}
