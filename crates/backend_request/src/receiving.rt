// What a reply is received as.
ghost use Rattle.std.specs.Prelude.{◌≡◌, ◌||◌, ◌<◌, ◌≤◌, length, Option, Some, None, codes, IfOk, MatchOption, if◌then◌else◌};
ghost use Rattle.std.specs.Option.{option_copied};
ghost use Rattle.freshness.specs.Merging.{merged};
ghost use Rattle.http_heads.specs.Limits.{set_limit};
ghost use Rattle.backend_request.specs.Passed.{passed_reply};
ghost use Rattle.backend_request.specs.Received.{has_condition as conditional, plain as plainly, confirmed, unasked as without_question, received};

use crate::Purpose;
use crate::passing::pass_reply;
use cache_law::Content;
use freshness::merge;
use http_heads::{FieldError, Fields, RequestHead, ResponseHead};
use std::alloc::{AllocError, Global};
use units::Text;

/// A response, as vcl_backend_response gets it.
#[derive(Drop)]
pub struct Received {
    pub head: ResponseHead,
    pub body: Text,
    /// Whether it is a stale object that the backend confirmed.
    pub was_304: bool,
}

fn has_condition(fields: &Fields) -> bool
    ensures { result ≡ conditional fields.now }
{
    fields.first(b"if-none-match").is_some() || fields.first(b"if-modified-since").is_some()
}

fn plain(alloc: Global, head: ResponseHead, body: Text) -> Result<Received, AllocError>
    ensures { IfOk result (λ response. response ≡ plainly head body) }
{
    let fields = pass_reply(alloc, &head.fields)?;
    let head = ResponseHead {
        version: head.version,
        status: head.status,
        reason: head.reason,
        fields,
    };
    Ok(Received {
        head,
        body,
        was_304: false,
    })
}

// A 304 to a request without conditions.
fn unasked(
    alloc: Global,
    purpose: Purpose,
    head: ResponseHead,
    body: Text,
) -> Result<Option<Received>, AllocError>
    ensures { IfOk result (λ response. response ≡ without_question purpose head body) }
{
    match purpose {
        Purpose::Store => Ok(None),
        Purpose::Pass => Ok(Some(plain(alloc, head, body)?)),
    }
}

fn merge_fields(alloc: Global, old: &Fields, new: &Fields) -> Result<Option<Fields>, AllocError>
    ensures { IfOk result (λ fields. MatchOption fields
        (set_limit < length (merged old.now (passed_reply new.now)))
        (λ all. (length (merged old.now (passed_reply new.now)) ≤ set_limit) × (all ≡ merged old.now (passed_reply new.now)))) }
{
    let kept = pass_reply(alloc, new)?;
    match merge(alloc, old, &kept) {
        Ok(fields) => Ok(Some(fields)),
        Err(FieldError::Full) => Ok(None),
        Err(FieldError::Bad) | Err(FieldError::NoMemory) => Err(AllocError),
    }
}

fn confirm(
    alloc: Global,
    old: &Content,
    head: &ResponseHead,
) -> Result<Option<Received>, AllocError>
    ensures { IfOk result (λ response. response ≡ confirmed old.now head.now) }
{
    let Some(fields) = merge_fields(alloc, &old.fields, &head.fields)? else {
        return Ok(None);
    };
    let head = ResponseHead {
        version: head.version,
        status: old.status,
        reason: old.reason.copy()?,
        fields,
    };
    Ok(Some(Received {
        head,
        body: old.body.copy()?,
        was_304: true,
    }))
}

/// The response that a reply is received as; None where the fetch is a fault by it. `asked` is the request as it was sent,
/// and `stale` the object that the backend may confirm, if the fetch has one.
pub fn receive(
    alloc: Global,
    asked: &RequestHead,
    purpose: Purpose,
    stale: Option<&Content>,
    head: ResponseHead,
    body: Text,
) -> Result<Option<Received>, AllocError>
    ensures { IfOk result (λ response. response ≡ received asked.now purpose (option_copied stale.entry) head body) }
{
    if head.status != 304 {
        return Ok(Some(plain(alloc, head, body)?));
    }
    match stale {
        Some(old) if has_condition(&asked.fields) => confirm(alloc, old, &head),
        _ => unasked(alloc, purpose, head, body),
    }
}
