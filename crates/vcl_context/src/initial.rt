// What a subroutine finds where nothing was filled yet, and what it leaves.
ghost use Rattle.std.specs.Prelude.{◌≡◌, IfOk};
ghost use Rattle.vcl_context.specs.Initial as due;

use crate::{CachedObject, ClientRequest, Context, FetchRequest, FetchResponse, Peer};
use http_heads::{Fields, RequestHead, ResponseHead};
use std::alloc::{AllocError, Global};
use units::{Sequence, Text, out_of_memory};
use vcl_values::Value;

fn no_request(alloc: Global) -> Result<RequestHead, AllocError>
    ensures { IfOk result (λ head. head ≡ due.no_request) }
{
    Ok(RequestHead {
        method: Text::of(alloc, b"")?,
        url: Text::of(alloc, b"")?,
        version: 11,
        fields: Fields::new(alloc),
    })
}

fn no_response(alloc: Global) -> Result<ResponseHead, AllocError>
    ensures { IfOk result (λ head. head ≡ due.no_response) }
{
    Ok(ResponseHead {
        version: 11,
        status: 200,
        reason: Text::of(alloc, b"")?,
        fields: Fields::new(alloc),
    })
}

fn no_client_request(alloc: Global) -> Result<ClientRequest, AllocError>
    ensures { IfOk result (λ request. request ≡ due.no_client_request) }
{
    Ok(ClientRequest {
        head: no_request(alloc)?,
        restarts: 0,
        ttl: None,
        grace: None,
        backend_hint: None,
        hash_always_miss: false,
        hash_ignore_busy: false,
        hash_ignore_vary: false,
        is_hitmiss: false,
        is_hitpass: false,
    })
}

fn no_object(alloc: Global) -> Result<CachedObject, AllocError>
    ensures { IfOk result (λ object. object ≡ due.no_object) }
{
    Ok(CachedObject {
        head: no_response(alloc)?,
        hits: 0,
        uncacheable: false,
        ttl: 0,
        age: 0,
        grace: 0,
        keep: 0,
    })
}

fn no_fetch_request(alloc: Global) -> Result<FetchRequest, AllocError>
    ensures { IfOk result (λ request. request ≡ due.no_fetch_request) }
{
    Ok(FetchRequest {
        head: no_request(alloc)?,
        backend: None,
        retries: 0,
        uncacheable: false,
        is_bgfetch: false,
    })
}

fn no_fetch_response(alloc: Global) -> Result<FetchResponse, AllocError>
    ensures { IfOk result (λ response. response ≡ due.no_fetch_response) }
{
    Ok(FetchResponse {
        head: no_response(alloc)?,
        ttl: 0,
        grace: 0,
        keep: 0,
        uncacheable: false,
        age: 0,
        was_304: false,
        backend: None,
    })
}

/// The client as it is known by its address.
pub fn peer_at(alloc: Global, address: [u8; 4]) -> Result<Peer, AllocError>
    ensures { IfOk result (λ peer. peer ≡ due.peer_at address) }
{
    Ok(Peer {
        address,
        identity: Value::Ip(address).text(alloc)?,
    })
}

/// A context of a client at this address, in which nothing else was filled.
pub fn empty_context(alloc: Global, address: [u8; 4]) -> Result<Context, AllocError>
    ensures { IfOk result (λ context. context ≡ due.empty_context address) }
{
    let peer = peer_at(alloc, address)?;
    let Ok(request) = no_client_request(alloc) else {
        return Err(out_of_memory(peer));
    };
    let Ok(object) = no_object(alloc) else {
        return Err(out_of_memory((peer, request)));
    };
    let Ok(fetch_request) = no_fetch_request(alloc) else {
        return Err(out_of_memory((peer, request, object)));
    };
    let Ok(fetch_response) = no_fetch_response(alloc) else {
        return Err(out_of_memory((peer, request, object, fetch_request)));
    };
    let Ok(response) = no_response(alloc) else {
        return Err(out_of_memory((peer, request, object, fetch_request, fetch_response)));
    };
    let Ok(jar) = Text::of(alloc, b"") else {
        return Err(out_of_memory((
            peer,
            request,
            object,
            fetch_request,
            fetch_response,
            response,
        )));
    };
    Ok(Context {
        peer,
        request,
        object,
        fetch_request,
        fetch_response,
        response,
        key: Sequence::new(alloc),
        body: None,
        jar,
        statements: 0,
    })
}

/// No statement was run.
pub fn uncount(context: &mut Context)
    ensures { context.new ≡ due.uncounted context.old }
{
    context.statements = 0;
}

/// The text that VCL made, as a body: empty where it made none.
pub fn body_or_empty(alloc: Global, body: &Option<Text>) -> Result<Text, AllocError>
    ensures { IfOk result (λ text. text ≡ due.body_or_empty body.now) }
{
    match body {
        Some(body) => Ok(body.copy()?),
        None => Text::of(alloc, b""),
    }
}

/// The status that VCL gave to `synth` or `error`, which is 503 where it isn't one that may be given.
pub fn status_or_503(number: i64) -> u16
    ensures { result ≡ due.status_or_503 number }
{
    if 199 < number && number < 1000 {
        number.unsigned_abs() as u16
    } else {
        503
    }
}
