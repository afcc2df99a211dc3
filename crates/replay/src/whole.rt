// The request at the front of a text.
ghost use Rattle.std.specs.Prelude.{◌≤◌, ℕ, List, length, IfOk, MatchOption};
ghost use Rattle.http_bodies.specs.Bodies.{BeginsWith};
ghost use Rattle.http_heads.specs.Heads.{LacksRequest};
ghost use Rattle.replay.specs.Whole.{HasFramedBody, IsTheRequest, LacksWholeRequest, IsTheWholeRequest};

use http_bodies::{BodyError, Framing, Kind, frame, read_body};
use http_heads::{Fields, HeadError, RequestHead, read_request};
use std::alloc::{AllocError, Global};
use units::Text;

/// The greatest body of a request.
const REQUEST_BODY_LIMIT: u64 = 1_048_576;

// The body with this framing at the front of the text, within the limit.
fn find_body(
    alloc: Global,
    framing: Framing,
    limit: u64,
    text: &[u8],
) -> Result<Option<Text>, AllocError>
    ensures { IfOk result (λ found. MatchOption found
        ((body rest : List ℕ) → BeginsWith framing text.now body rest → length body ≤ limit → ⊥)
        (λ body. (rest : List ℕ) × BeginsWith framing text.now body rest × (length body ≤ limit))) }
{
    match read_body(alloc, framing, limit, text) {
        Ok((body, _)) => Ok(Some(body)),
        Err(error) => {
            if error == BodyError::NoMemory {
                Err(AllocError)
            } else {
                Ok(None)
            }
        }
    }
}

// The body that the fields of a message frame, within the limit.
fn read_framed_body(
    alloc: Global,
    kind: Kind,
    limit: u64,
    fields: &Fields,
    text: &[u8],
) -> Result<Option<Text>, AllocError>
    ensures { IfOk result (λ found. MatchOption found
        ((body : List ℕ) → HasFramedBody kind limit fields.now text.now body → ⊥)
        (λ body. HasFramedBody kind limit fields.now text.now body)) }
{
    match frame(fields, kind) {
        Ok(framing) => find_body(alloc, framing, limit, text),
        Err(_) => Ok(None),
    }
}

// The head of a request at the front of the text, and its length.
fn read_request_head(alloc: Global, text: &[u8]) -> Result<Option<(RequestHead, usize)>, AllocError>
    ensures { IfOk result (λ found. MatchOption found (LacksRequest text.now) (λ found. IsTheRequest text.now found.0 found.1)) }
{
    match read_request(alloc, text) {
        Ok(found) => Ok(found),
        Err(error) => {
            if error == HeadError::NoMemory {
                Err(AllocError)
            } else {
                Ok(None)
            }
        }
    }
}

/// The head and the body of the whole request at the front of the text; None where none stands there, be it that its
/// head, its framing or its body is refused, or that the text ends in it.
pub(crate) fn read_whole_request(
    alloc: Global,
    text: &[u8],
) -> Result<Option<(RequestHead, Text)>, AllocError>
    ensures { IfOk result (λ found. MatchOption found (LacksWholeRequest text.now) (λ found. IsTheWholeRequest text.now found.0 found.1)) }
{
    let (head, count) = match read_request_head(alloc, text)? {
        Some(found) => found,
        None => return Ok(None),
    };
    match read_framed_body(
        alloc,
        Kind::Request,
        REQUEST_BODY_LIMIT,
        &head.fields,
        &text[count..],
    )? {
        Some(body) => Ok(Some((head, body))),
        None => Ok(None),
    }
}
