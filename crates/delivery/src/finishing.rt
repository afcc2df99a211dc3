// The response as it is sent, of what VCL left.
ghost use Rattle.std.specs.Prelude.{◌≡◌, ◌||◌, ◌&&◌, ◌==◌, ◌<◌, ◌^◌, codes, length, IfOk};
ghost use Rattle.std.specs.Str.{bytes_eq};
ghost use Rattle.http_heads.specs.Printed.{IsResponseShape};
ghost use Rattle.delivery.specs.Finished.{is_get_or_head, is_head as to_head, is_confirmed as confirms, settled, is_bodiless as bodiless, is_length_unknown as length_unknown, says_no_length as says_none, framed, ended, asks_to_close as asks, sent_body as body_sent, finished};

use freshness::not_modified;
use http_bodies::{unframed, with_length};
use http_heads::{Fields, RequestHead, ResponseHead, is_listed, with_only_field};
use std::alloc::{AllocError, Global};
use units::Text;

/// A response as it is sent. Its body is empty where none is sent.
#[derive(Drop)]
pub struct Delivery {
    pub head: ResponseHead,
    pub body: Text,
}

/// The body of a response as VCL left it.
#[derive(Drop)]
pub struct ResponseBody {
    pub text: Text,
    /// The response is a backend's to a request that was passed, so that HEAD may have been asked for it.
    pub passed: bool,
}

fn is_head(asked: &RequestHead) -> bool
    ensures { result ≡ to_head asked.now }
{
    asked.method.bytes() == b"HEAD".as_slice()
}

fn may_be_confirmed(asked: &RequestHead) -> bool
    ensures { result ≡ is_get_or_head asked.now }
{
    asked.method.bytes() == b"GET".as_slice() || is_head(asked)
}

// Whether the client has the response already.
fn is_confirmed(asked: &RequestHead, conditions: &Fields, head: &ResponseHead) -> bool
    ensures { result ≡ confirms asked.now conditions.now head.now }
{
    may_be_confirmed(asked) && head.status == 200 && not_modified(conditions, &head.fields)
}

fn settle(
    alloc: Global,
    asked: &RequestHead,
    conditions: &Fields,
    head: ResponseHead,
) -> Result<ResponseHead, AllocError>
    ensures { IfOk result (λ settled_head. settled_head ≡ settled asked.now conditions.now head) }
{
    if !is_confirmed(asked, conditions, &head) {
        return Ok(head);
    }
    Ok(ResponseHead {
        version: head.version,
        status: 304,
        reason: Text::of(alloc, b"Not Modified")?,
        fields: head.fields,
    })
}

fn is_bodiless(status: u16) -> bool
    ensures { result ≡ bodiless status }
{
    status == 204 || status == 304
}

// Whether the length that GET would have isn't known (RFC 9110, section 8.6).
fn is_length_unknown(asked: &RequestHead, body: &ResponseBody) -> bool
    ensures { result ≡ length_unknown asked.now body.now }
{
    is_head(asked) && body.passed && body.text.bytes().is_empty()
}

fn says_no_length(asked: &RequestHead, status: u16, body: &ResponseBody) -> bool
    ensures { result ≡ says_none asked.now status body.now }
{
    is_bodiless(status) || is_length_unknown(asked, body)
}

// The fields with the body's length, where one may be said.
fn frame_fields(
    alloc: Global,
    asked: &RequestHead,
    status: u16,
    body: &ResponseBody,
    fields: Fields,
) -> Result<Fields, AllocError>
    ensures { IfOk result (λ all. all ≡ framed asked.now status body.now fields) }
{
    if says_no_length(asked, status, body) {
        return Ok(unframed(fields));
    }
    with_length(alloc, fields, body.text.bytes().len() as u64)
}

fn asks_to_close(asked: &RequestHead) -> bool
    ensures { result ≡ asks asked.now }
{
    asked.version == 10 || is_listed(&asked.fields, b"connection", b"close")
}

fn end_fields(alloc: Global, asked: &RequestHead, fields: Fields) -> Result<Fields, AllocError>
    ensures { IfOk result (λ all. all ≡ ended asked.now fields) }
{
    if asks_to_close(asked) {
        return with_only_field(alloc, fields, b"Connection", b"close");
    }
    Ok(fields)
}

fn sent_body(
    alloc: Global,
    asked: &RequestHead,
    status: u16,
    body: Text,
) -> Result<Text, AllocError>
    ensures { IfOk result (λ sent. sent ≡ body_sent asked.now status body) }
{
    if is_head(asked) || is_bodiless(status) {
        return Text::of(alloc, b"");
    }
    Ok(body)
}

/// The response as it is sent to the request `asked`, which is the one that came. `conditions` are the fields of the
/// request as VCL left them; `head` and `body` are the response as VCL left it.
pub fn finish(
    alloc: Global,
    asked: &RequestHead,
    conditions: &Fields,
    head: ResponseHead,
    body: ResponseBody,
) -> Result<Delivery, AllocError>
    ensures { IfOk result (λ sent. sent ≡ finished asked.now conditions.now head body) }
{
    let head = settle(alloc, asked, conditions, head)?;
    let status = head.status;
    let fields = frame_fields(alloc, asked, status, &body, head.fields)?;
    let head = ResponseHead {
        version: 11,
        status,
        reason: head.reason,
        fields: end_fields(alloc, asked, fields)?,
    };
    let body = sent_body(alloc, asked, status, body.text)?;
    Ok(Delivery { head, body })
}
