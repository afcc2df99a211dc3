// Objects and queries by the words of a row.
use crate::texts::{fields, parts, text, texts};
use cache_law::{Content, Marker, Object, Options, Query, RequestView, Response, VaryItem};
use freshness::Timing;
use row_settings::{count, has, setting, signed, value};
use std::alloc::{AllocError, Global};
use units::{Sequence, Shared, Text};

/// The texts of the key, `key`, with commas between.
pub fn key(alloc: Global, words: &str) -> Result<Sequence<Text>, AllocError> {
    parts(alloc, setting(words, "key"))
}

/// What was fetched: an object with `status`, `body` or so many `bytes`, `origin`, `ttl`, `grace`, `keep`, `xkeys` and fields, of a
/// response that varies by the field `X` with the values `vary` or by more than fields; or a marker with `status`, `origin` and `ttl`.
pub fn object(alloc: Global, words: &str) -> Result<Shared<Object>, AllocError> {
    Shared::new(alloc, fetched(alloc, words)?)
}

fn fetched(alloc: Global, words: &str) -> Result<Object, AllocError> {
    if has(words, "hit_for_miss") {
        return Ok(Object::HitForMiss(marker(alloc, words)?));
    }
    if has(words, "hit_for_pass") {
        return Ok(Object::HitForPass(marker(alloc, words)?));
    }
    Ok(Object::Ordinary(response(alloc, words)?))
}

fn marker(alloc: Global, words: &str) -> Result<Marker, AllocError> {
    let key = key(alloc, words)?;
    Ok(Marker {
        key,
        vary: Sequence::new(alloc),
        status: status(words),
        origin: signed(words, "origin").unwrap_or(0),
        ttl: signed(words, "ttl").unwrap_or(0),
    })
}

fn response(alloc: Global, words: &str) -> Result<Response, AllocError> {
    let content = Shared::new(alloc, content(alloc, words)?)?;
    let timing = timing(words);
    Ok(Response { timing, content })
}

fn timing(words: &str) -> Timing {
    Timing {
        origin: signed(words, "origin").unwrap_or(0),
        ttl: signed(words, "ttl").unwrap_or(0),
        grace: signed(words, "grace").unwrap_or(0),
        keep: signed(words, "keep").unwrap_or(0),
    }
}

fn status(words: &str) -> u16 {
    setting(words, "status").parse::<u16>().unwrap_or(200)
}

fn content(alloc: Global, words: &str) -> Result<Content, AllocError> {
    let (key, vary, xkeys) = names(alloc, words)?;
    let (reason, body) = texts_of(alloc, words)?;
    let fields = fields(alloc, words)?;
    Ok(Content {
        key,
        vary,
        varies_always: has(words, "always"),
        status: status(words),
        reason,
        fields,
        body,
        xkeys,
    })
}

type Names = (Sequence<Text>, Sequence<VaryItem>, Sequence<Text>);

// By what an object is found: its key, the fields that it varies by, and its xkeys.
fn names(alloc: Global, words: &str) -> Result<Names, AllocError> {
    let key = key(alloc, words)?;
    let vary = vary(alloc, words)?;
    let xkeys = texts(alloc, words, "xkeys")?;
    Ok((key, vary, xkeys))
}

fn texts_of(alloc: Global, words: &str) -> Result<(Text, Text), AllocError> {
    let reason = Text::of(alloc, b"")?;
    let body = body(alloc, words)?;
    Ok((reason, body))
}

// `body`, or as many bytes as `bytes` says.
fn body(alloc: Global, words: &str) -> Result<Text, AllocError> {
    match count(words, "bytes") {
        Some(length) => body_of(alloc, length),
        None => text(alloc, words, "body"),
    }
}

fn body_of(alloc: Global, length: u64) -> Result<Text, AllocError> {
    let mut bytes = Vec::new(alloc);
    for _ in 0..length {
        bytes.push(b'a')?;
    }
    Text::from_vec(bytes)
}

fn vary(alloc: Global, words: &str) -> Result<Sequence<VaryItem>, AllocError> {
    let mut vary = Sequence::new(alloc);
    if has_vary(words) {
        vary.push(vary_item(alloc, words)?)?;
    }
    Ok(vary)
}

fn has_vary(words: &str) -> bool {
    value(words, "vary").is_some()
}

fn vary_item(alloc: Global, words: &str) -> Result<VaryItem, AllocError> {
    let name = Text::of(alloc, b"X")?;
    let values = texts(alloc, words, "vary")?;
    Ok(VaryItem { name, values })
}

/// A lookup of the key by a request with the fields.
pub fn query(alloc: Global, words: &str) -> Result<Shared<Query>, AllocError> {
    let key = key(alloc, words)?;
    let request = view(alloc, words)?;
    let options = options(words);
    Shared::new(
        alloc,
        Query {
            key,
            request,
            options,
        },
    )
}

/// What a lookup knows of a request: `url` and the fields.
pub fn view(alloc: Global, words: &str) -> Result<RequestView, AllocError> {
    let url = text(alloc, words, "url")?;
    let fields = fields(alloc, words)?;
    Ok(RequestView { url, fields })
}

fn options(words: &str) -> Options {
    Options {
        always_miss: has(words, "always_miss"),
        ignore_busy: has(words, "ignore_busy"),
        ignore_vary: has(words, "ignore_vary"),
        ttl: signed(words, "ttl"),
        grace: signed(words, "grace"),
    }
}
