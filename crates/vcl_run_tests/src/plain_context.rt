// A context to begin with: a request for /A, and heads without fields.
use http_heads::{Fields, RequestHead, ResponseHead};
use std::alloc::{AllocError, Global};
use units::{Sequence, Text};
use vcl_context::{CachedObject, ClientRequest, Context, FetchRequest, FetchResponse, Peer};

fn request_head(alloc: Global) -> Result<RequestHead, AllocError> {
    Ok(RequestHead {
        method: Text::of(alloc, b"GET")?,
        url: Text::of(alloc, b"/A")?,
        version: 11,
        fields: Fields::new(alloc),
    })
}

fn response_head(alloc: Global) -> Result<ResponseHead, AllocError> {
    Ok(ResponseHead {
        version: 11,
        status: 200,
        reason: Text::of(alloc, b"OK")?,
        fields: Fields::new(alloc),
    })
}

fn request_heads(alloc: Global) -> Result<(RequestHead, RequestHead), AllocError> {
    let first = request_head(alloc)?;
    Ok((first, request_head(alloc)?))
}

fn response_heads(alloc: Global) -> Result<(ResponseHead, ResponseHead, ResponseHead), AllocError> {
    let first = response_head(alloc)?;
    let second = response_head(alloc)?;
    Ok((first, second, response_head(alloc)?))
}

fn client_request(head: RequestHead) -> ClientRequest {
    ClientRequest {
        head,
        restarts: 0,
        ttl: None,
        grace: None,
        backend_hint: None,
        hash_always_miss: false,
        hash_ignore_busy: false,
        hash_ignore_vary: false,
        is_hitmiss: false,
        is_hitpass: false,
    }
}

fn cached_object(head: ResponseHead) -> CachedObject {
    CachedObject {
        head,
        hits: 3,
        uncacheable: false,
        ttl: 120_000,
        age: 0,
        grace: 10_000,
        keep: 0,
    }
}

fn fetch_response(head: ResponseHead) -> FetchResponse {
    FetchResponse {
        head,
        ttl: 120_000,
        grace: 10_000,
        keep: 0,
        uncacheable: false,
        age: 0,
        was_304: false,
        backend: None,
    }
}

/// A client that asks for /A, and heads of requests and responses without fields.
pub fn context(alloc: Global) -> Result<Box<Context>, AllocError> {
    let identity = Text::of(alloc, b"10.0.0.1")?;
    let (asked, fetched) = request_heads(alloc)?;
    let (object, response, sent) = response_heads(alloc)?;
    let context = Context {
        peer: Peer {
            address: [10, 0, 0, 1],
            identity,
        },
        request: client_request(asked),
        object: cached_object(object),
        fetch_request: FetchRequest {
            head: fetched,
            backend: None,
            retries: 0,
            uncacheable: false,
            is_bgfetch: false,
        },
        fetch_response: fetch_response(response),
        response: sent,
        key: Sequence::new(alloc),
        body: None,
        jar: Text::of(alloc, b"")?,
        statements: 0,
    };
    Ok(Box::new(alloc, context)?)
}
