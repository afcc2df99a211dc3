// Heads, requests and objects that tests begin with.
use backend_request::make_response;
use cache_law::rounds::Request;
use cache_law::{Object, ObjectView, Options, Query, RequestView, Response};
use freshness::Timing;
use http_heads::{RequestHead, ResponseHead, read_request, read_response};
use std::alloc::{AllocError, Global};
use units::{Sequence, Shared, Text, quoted};

/// A request for `/a`.
pub const GET: &[u8] = b"GET /a HTTP/1.1\r\nHost: h\r\n\r\n";

/// Where requests come from.
pub const PEER: [u8; 4] = [10, 0, 0, 1];

/// The text between quotes that stands behind so many bars. No text is empty.
pub fn text_at(alloc: Global, row: &str, place: usize) -> Result<Text, AllocError> {
    for (number, part) in row.split(" | ").enumerate() {
        if number == place
            && let Some((text, _)) = quoted(alloc, part.as_bytes(), 0)?
        {
            return Ok(text);
        }
    }
    Text::of(alloc, b"")
}

pub fn request_head(alloc: Global, text: &[u8]) -> Result<RequestHead, AllocError> {
    match read_request(alloc, text) {
        Ok(Some((head, _))) => Ok(head),
        _ => Err(AllocError),
    }
}

pub fn response_head(alloc: Global, text: &[u8]) -> Result<ResponseHead, AllocError> {
    match read_response(alloc, text) {
        Ok(Some((head, _))) => Ok(head),
        _ => Err(AllocError),
    }
}

pub fn request(alloc: Global, text: &[u8], body: &[u8]) -> Result<Request, AllocError> {
    let head = request_head(alloc, text)?;
    let body = Text::of(alloc, body)?;
    Ok(Request { head, body })
}

fn key(alloc: Global) -> Result<Sequence<Text>, AllocError> {
    let mut key = Sequence::new(alloc);
    key.push(Text::of(alloc, b"/a")?)?;
    Ok(key)
}

/// What is looked up for this request, under the key `/a`.
pub fn query(alloc: Global, text: &[u8]) -> Result<Query, AllocError> {
    let head = request_head(alloc, text)?;
    let key = key(alloc)?;
    Ok(Query {
        key,
        request: RequestView {
            url: head.url,
            fields: head.fields,
        },
        options: Options::PLAIN,
    })
}

/// A response with this head and the body `hi`.
pub fn stored(
    alloc: Global,
    looked: Option<&Query>,
    text: &[u8],
    timing: Timing,
) -> Result<Response, AllocError> {
    let head = response_head(alloc, text)?;
    let body = Text::of(alloc, b"hi")?;
    make_response(alloc, looked, head, body, timing)
}

/// The object of this number, which has such a response.
pub fn view(
    alloc: Global,
    number: u64,
    text: &[u8],
    timing: Timing,
) -> Result<ObjectView, AllocError> {
    let object = Object::Ordinary(stored(alloc, None, text, timing)?);
    Ok(ObjectView {
        number,
        hits: 1,
        object: Shared::new(alloc, object)?,
    })
}
