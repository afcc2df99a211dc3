// Requests to backends.
ghost use Rattle.std.specs.Prelude.{◌≡◌, codes, IfOk};
ghost use Rattle.std.specs.Option.{option_copied};
ghost use Rattle.http_heads.specs.Fields.{first_value};
ghost use Rattle.backend_request.specs.Asked.{opened_request, finished_request, with_condition, with_conditions, method_for as method_of, body_for as body_of, framed, unconditional as without_conditions};

use crate::Purpose;
use crate::passing::pass_request;
use http_bodies::{unframed, with_length};
use http_heads::{BackendRequest, Fields, RequestHead, with_field, with_number};
use std::alloc::{AllocError, Global};
use units::Text;

fn method_for(alloc: Global, purpose: Purpose, asked: &RequestHead) -> Result<Text, AllocError>
    ensures { IfOk result (λ method. method ≡ method_of purpose asked.now.method) }
{
    match purpose {
        Purpose::Store => Text::of(alloc, b"GET"),
        Purpose::Pass => asked.method.copy(),
    }
}

fn put_condition(
    alloc: Global,
    fields: Fields,
    name: &[u8],
    value: Option<&Text>,
) -> Result<Fields, AllocError>
    ensures { IfOk result (λ all. all ≡ with_condition name.now (option_copied value.entry) fields) }
{
    match value {
        Some(value) => with_field(alloc, fields, name, value.bytes()),
        None => Ok(fields),
    }
}

fn put_conditions(
    alloc: Global,
    fields: Fields,
    stale: Option<&Fields>,
) -> Result<Fields, AllocError>
    ensures { IfOk result (λ all. all ≡ with_conditions (option_copied stale.entry) fields) }
{
    let stale = match stale {
        Some(stale) => stale,
        None => return Ok(fields),
    };
    let fields = put_condition(alloc, fields, b"If-None-Match", stale.first(b"etag"))?;
    put_condition(
        alloc,
        fields,
        b"If-Modified-Since",
        stale.first(b"last-modified"),
    )
}

/// What a backend is asked, as vcl_backend_fetch gets it, for a client's request as VCL left it. `number` is the fetch's, and
/// `stale` are the fields of the object that the backend may confirm.
pub fn open_request(
    alloc: Global,
    asked: &RequestHead,
    purpose: Purpose,
    number: u64,
    stale: Option<&Fields>,
) -> Result<RequestHead, AllocError>
    ensures { IfOk result (λ head. head ≡ opened_request purpose number (option_copied stale.entry) asked.now) }
{
    let fields = pass_request(alloc, purpose, &asked.fields)?;
    let fields = with_number(alloc, fields, b"X-Varnish", number)?;
    Ok(RequestHead {
        method: method_for(alloc, purpose, asked)?,
        url: asked.url.copy()?,
        version: 11,
        fields: put_conditions(alloc, fields, stale)?,
    })
}

fn body_for(alloc: Global, purpose: Purpose, body: &Text) -> Result<Text, AllocError>
    ensures { IfOk result (λ sent. sent ≡ body_of purpose body.now) }
{
    match purpose {
        Purpose::Store => Text::of(alloc, b""),
        Purpose::Pass => body.copy(),
    }
}

// The fields with the length of a body, if there is one.
fn frame_fields(alloc: Global, len: u64, fields: Fields) -> Result<Fields, AllocError>
    ensures { IfOk result (λ all. all ≡ framed len fields) }
{
    if len == 0 {
        return Ok(unframed(fields));
    }
    with_length(alloc, fields, len)
}

/// The request as it is sent: what vcl_backend_fetch left, with the body of the client's request where it is passed on.
pub fn finish_request(
    alloc: Global,
    head: RequestHead,
    purpose: Purpose,
    body: &Text,
) -> Result<BackendRequest, AllocError>
    ensures { IfOk result (λ request. request ≡ finished_request purpose body.now head) }
{
    let body = body_for(alloc, purpose, body)?;
    let head = RequestHead {
        method: head.method,
        url: head.url,
        version: 11,
        fields: frame_fields(alloc, body.bytes().len() as u64, head.fields)?,
    };
    Ok(BackendRequest { head, body })
}

/// The same request without the conditions by which a stale object may be confirmed.
pub fn unconditional(head: RequestHead) -> RequestHead
    ensures { result ≡ without_conditions head }
{
    let mut fields = head.fields;
    fields.unset(b"if-none-match");
    fields.unset(b"if-modified-since");
    RequestHead {
        method: head.method,
        url: head.url,
        version: head.version,
        fields,
    }
}
