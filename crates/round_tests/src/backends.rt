// What backends are asked, and what their replies are received, stored and remembered as. The first word of a row is followed by
// what the fetch is for, `store` or `pass`, and by texts between bars.
use crate::heads::{PEER, query, request_head, response_head, stored, text_at};
use backend_request::{
    Purpose, Received, error_head, finish_request, make_marker, open_request, receive, timed,
    unconditional,
};
use cache_law::{Content, Marker, Response, VaryItem};
use client_graph::forward;
use freshness::Timing;
use http_heads::{Field, Fields, RequestHead, print_request, print_response};
use std::alloc::{AllocError, Global};
use units::Text;

const PLAIN: Timing = Timing {
    origin: 5,
    ttl: 1_000,
    grace: 0,
    keep: 0,
};

fn purpose_of(row: &str) -> Purpose {
    if row.starts_with("pass") {
        Purpose::Pass
    } else {
        Purpose::Store
    }
}

/// What is said of the row.
pub fn request_shown(alloc: Global, row: &str) -> Result<String, AllocError> {
    let (word, rest) = row.split_once(' ').unwrap_or((row, ""));
    match word {
        "asks" => asked_shown(alloc, rest),
        "again" => again_shown(alloc, rest),
        "hears" => heard_shown(alloc, rest),
        "stores" => stored_shown(alloc, rest),
        "marks" => marked_shown(alloc, rest),
        "timed" => timed_shown(alloc, rest),
        _ => error_shown(alloc),
    }
}

// What the client asks, as it goes on from its address.
fn forwarded(alloc: Global, row: &str) -> Result<RequestHead, AllocError> {
    let asked = text_at(alloc, row, 1)?;
    let RequestHead {
        method,
        url,
        version,
        fields,
    } = request_head(alloc, asked.bytes())?;
    Ok(RequestHead {
        method,
        url,
        version,
        fields: forward(alloc, fields, PEER)?,
    })
}

// What the fetch numbered 2 begins with, beside a stale object where there is one.
fn opened(alloc: Global, row: &str) -> Result<RequestHead, AllocError> {
    let asked = forwarded(alloc, row)?;
    let stale = text_at(alloc, row, 3)?;
    if stale.bytes().is_empty() {
        return open_request(alloc, &asked, purpose_of(row), 2, None);
    }
    let stale = response_head(alloc, stale.bytes())?;
    open_request(alloc, &asked, purpose_of(row), 2, Some(&stale.fields))
}

// The head and the body that the backend gets.
fn asked_shown(alloc: Global, row: &str) -> Result<String, AllocError> {
    let head = opened(alloc, row)?;
    let body = text_at(alloc, row, 2)?;
    let sent = finish_request(alloc, head, purpose_of(row), &body)?;
    let text = print_request(alloc, &sent.head)?;
    format!(in alloc; "{text:?} {:?}", sent.body)
}

// The head without its conditions.
fn again_shown(alloc: Global, row: &str) -> Result<String, AllocError> {
    let head = unconditional(opened(alloc, row)?);
    let text = print_request(alloc, &head)?;
    format!(in alloc; "{text:?}")
}

fn content(alloc: Global, row: &str, place: usize) -> Result<Response, AllocError> {
    let text = text_at(alloc, row, place)?;
    stored(alloc, None, text.bytes(), PLAIN)
}

// The head that the reply is received as, beside a stale object, whether it confirms that, and the body.
fn heard_shown(alloc: Global, row: &str) -> Result<String, AllocError> {
    let asked = text_at(alloc, row, 1)?;
    let asked = request_head(alloc, asked.bytes())?;
    let stale = content(alloc, row, 2)?;
    received_shown(alloc, row, &asked, &stale.content)
}

fn received_shown(
    alloc: Global,
    row: &str,
    asked: &RequestHead,
    stale: &Content,
) -> Result<String, AllocError> {
    let reply = text_at(alloc, row, 3)?;
    let reply = response_head(alloc, reply.bytes())?;
    let body = Text::of(alloc, b"")?;
    match receive(alloc, asked, purpose_of(row), Some(stale), reply, body)? {
        Some(received) => reply_shown(alloc, &received),
        None => format!(in alloc; "none"),
    }
}

fn reply_shown(alloc: Global, received: &Received) -> Result<String, AllocError> {
    let head = print_response(alloc, &received.head)?;
    format!(in alloc; "{head:?} {} {:?}", received.was_304, received.body)
}

// A response to a query that it varies by.
fn varying(alloc: Global, row: &str) -> Result<Response, AllocError> {
    let asked = text_at(alloc, row, 1)?;
    let query = query(alloc, asked.bytes())?;
    let reply = text_at(alloc, row, 2)?;
    stored(alloc, Some(&query), reply.bytes(), PLAIN)
}

fn stored_shown(alloc: Global, row: &str) -> Result<String, AllocError> {
    let stored = varying(alloc, row)?;
    let content: &Content = &stored.content;
    let (keys, xkeys) = (content.key.as_slice(), content.xkeys.as_slice());
    format!(in alloc;
        "varies always {} {keys:?} {xkeys:?}",
        content.varies_always
    )
}

fn marked_shown(alloc: Global, row: &str) -> Result<String, AllocError> {
    let stored = varying(alloc, row)?;
    let marker = make_marker(alloc, &stored, 7)?;
    marker_shown(alloc, &marker)
}

fn marker_shown(alloc: Global, marker: &Marker) -> Result<String, AllocError> {
    let mut out = format!(in alloc; "origin {} ttl {}", marker.origin, marker.ttl)?;
    for item in marker.vary.as_slice() {
        push_item(&mut out, item)?;
    }
    Ok(out)
}

fn push_item(out: &mut String, item: &VaryItem) -> Result<(), AllocError> {
    let values = item.values.as_slice().len();
    write!(out, " {:?} {values}", item.name)
}

fn timing_shown(alloc: Global, timing: Timing) -> Result<String, AllocError> {
    format!(in alloc;
        "origin {} ttl {} grace {}",
        timing.origin, timing.ttl, timing.grace
    )
}

// Of a reply with status 200 at 3000.
fn timed_shown(alloc: Global, row: &str) -> Result<String, AllocError> {
    let reply = text_at(alloc, row, 1)?;
    let head = response_head(alloc, reply.bytes())?;
    timing_shown(alloc, timed(purpose_of(row), 200, &head.fields, 3_000))
}

// Of a page that says an error, at 3000.
fn error_shown(alloc: Global) -> Result<String, AllocError> {
    let reason = Text::of(alloc, b"Backend fetch failed")?;
    let head = error_head(alloc, 503, reason);
    timing_shown(
        alloc,
        timed(Purpose::Store, head.status, &head.fields, 3_000),
    )
}

fn fields_of(alloc: Global, row: &str) -> Result<Fields, AllocError> {
    let mut fields = Vec::new(alloc);
    for word in row.split(' ') {
        let (name, value) = word.split_once(':').unwrap_or((word, ""));
        fields.push(Field {
            name: Text::of(alloc, name.as_bytes())?,
            value: Text::of(alloc, value.as_bytes())?,
        })?;
    }
    Ok(Fields::from_vec(fields))
}

/// The fields of a client's request as they go on.
pub fn forwarded_shown(alloc: Global, row: &str) -> Result<String, AllocError> {
    let fields = fields_of(alloc, row)?;
    let fields = forward(alloc, fields, PEER)?;
    let mut out = String::new(alloc);
    for field in fields.as_slice() {
        write!(out, "{:?} {:?};", field.name, field.value)?;
    }
    Ok(out)
}
