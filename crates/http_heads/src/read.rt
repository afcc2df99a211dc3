// The head of a message at the front of bytes.
ghost use Rattle.std.specs.Prelude.{◌≡◌, ℕ, Some, length, take, map, All, IfOk, MatchOption};
ghost use Rattle.httparse.specs.Spans.{IsWithin, IsHeaderWithin, IsRequestWithin, IsResponseWithin, span_bytes};
ghost use Rattle.http_heads.specs.Limits.{head_limit};
ghost use Rattle.http_heads.specs.Heads.{HasRequest, HasResponse, AnswersRequest, AnswersResponse};
ghost use Rattle.units.specs.Outcomes.{Gives};
ghost use Rattle.http_heads.specs.declared.message.HeadError.TheVariants as fault;
ghost use Rattle.http_heads.specs.Lines.{HasTooManyLines};
ghost use Rattle.http_heads.specs.Spans.{field_at, request_at, response_at};
ghost use Rattle.http_heads.specs.declared.message.RequestHead.{RequestHead};
ghost use Rattle.http_heads.specs.declared.message.ResponseHead.{ResponseHead};

use crate::limits::{MAX_FIELDS, MAX_HEAD};
use crate::lines::has_too_many_lines;
use crate::{Field, Fields, HeadError, RequestHead, ResponseHead};
use httparse::Status;
use httparse::spans::{
    EMPTY_HEADER_SPAN, HeaderSpan, RequestSpans, ResponseSpans, Span, parse_request, parse_response,
};
use std::alloc::{AllocError, Global};
use units::Text;

/// The request whose head stands at the front of the bytes, and the length of the head. None where the
/// head isn't whole yet. A head has at most 32,768 bytes and 64 fields.
pub fn read_request(alloc: Global, bytes: &[u8]) -> Result<Option<(RequestHead, usize)>, HeadError>
    ensures answer { AnswersRequest bytes.now result }
    ensures found { (message : RequestHead) (count : ℕ) → HasRequest bytes.now message count
        → Gives fault.NoMemory result (Some (message, count)) }
{
    let Some(front) = front_of(bytes) else {
        return Err(HeadError::TooMany);
    };
    let mut room = [EMPTY_HEADER_SPAN; MAX_FIELDS];
    match parse_request(front, &mut room) {
        Ok(Status::Complete(spans)) => {
            let head = request_from(alloc, front, &spans, &room)?;
            Ok(Some((head, spans.len)))
        }
        Ok(Status::Partial) => {
            if front.len() < MAX_HEAD {
                Ok(None)
            } else {
                Err(HeadError::TooLong)
            }
        }
        Err(_) => Err(HeadError::Bad),
    }
}

/// The response whose head stands at the front of the bytes, and the length of the head. None where the
/// head isn't whole yet. A head has at most 32,768 bytes and 64 fields.
pub fn read_response(
    alloc: Global,
    bytes: &[u8],
) -> Result<Option<(ResponseHead, usize)>, HeadError>
    ensures answer { AnswersResponse bytes.now result }
    ensures found { (message : ResponseHead) (count : ℕ) → HasResponse bytes.now message count
        → Gives fault.NoMemory result (Some (message, count)) }
{
    let Some(front) = front_of(bytes) else {
        return Err(HeadError::TooMany);
    };
    let mut room = [EMPTY_HEADER_SPAN; MAX_FIELDS];
    match parse_response(front, &mut room) {
        Ok(Status::Complete(spans)) => {
            let head = response_from(alloc, front, &spans, &room)?;
            Ok(Some((head, spans.len)))
        }
        Ok(Status::Partial) => {
            if front.len() < MAX_HEAD {
                Ok(None)
            } else {
                Err(HeadError::TooLong)
            }
        }
        Err(_) => Err(HeadError::Bad),
    }
}

// The bytes in which a head must stand, unless their lines are too many.
fn front_of(bytes: &[u8]) -> Option<&[u8]>
    ensures { MatchOption result (HasTooManyLines bytes.now) (λ front. (front.now ≡ take head_limit bytes.now) × ¬ (HasTooManyLines bytes.now)) }
{
    let front = &bytes[..bytes.len().min(MAX_HEAD)];
    if has_too_many_lines(front) {
        None
    } else {
        Some(front)
    }
}

fn request_from(
    alloc: Global,
    front: &[u8],
    spans: &RequestSpans,
    room: &[HeaderSpan],
) -> Result<RequestHead, AllocError>
    requires { IsRequestWithin front.now room.now spans.now }
    ensures { IfOk result (λ head. head ≡ request_at front.now room.now spans.now) }
{
    let fields = fields_from(alloc, front, &room[..spans.headers])?;
    Ok(RequestHead {
        method: text_from(alloc, front, spans.method)?,
        url: text_from(alloc, front, spans.path)?,
        version: 10 + spans.version,
        fields: Fields::from_vec(fields),
    })
}

fn response_from(
    alloc: Global,
    front: &[u8],
    spans: &ResponseSpans,
    room: &[HeaderSpan],
) -> Result<ResponseHead, AllocError>
    requires { IsResponseWithin front.now room.now spans.now }
    ensures { IfOk result (λ head. head ≡ response_at front.now room.now spans.now) }
{
    let fields = fields_from(alloc, front, &room[..spans.headers])?;
    Ok(ResponseHead {
        version: 10 + spans.version,
        status: spans.code,
        reason: text_from(alloc, front, spans.reason)?,
        fields: Fields::from_vec(fields),
    })
}

fn text_from(alloc: Global, front: &[u8], span: Span) -> Result<Text, AllocError>
    requires { IsWithin (length front.now) span }
    ensures { IfOk result (λ text. text ≡ span_bytes front.now span) }
{
    Text::of(alloc, span.of(front))
}

fn fields_from(alloc: Global, front: &[u8], spans: &[HeaderSpan]) -> Result<Vec<Field>, AllocError>
    requires { All (IsHeaderWithin (length front.now)) spans.now }
    ensures { IfOk result (λ fields. fields.items ≡ map (field_at front.now) spans.now) }
{
    let mut fields = Vec::new(alloc);
    for span in spans {
        fields.push(field_from(alloc, front, *span)?)?;
    }
    Ok(fields)
}

fn field_from(alloc: Global, front: &[u8], span: HeaderSpan) -> Result<Field, AllocError>
    requires { IsHeaderWithin (length front.now) span }
    ensures { IfOk result (λ field. field ≡ field_at front.now span) }
{
    Ok(Field {
        name: text_from(alloc, front, span.name)?,
        value: text_from(alloc, front, span.value)?,
    })
}
