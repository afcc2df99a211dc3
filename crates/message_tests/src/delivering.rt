// Responses as they are sent.
use crate::heads::{request_of, response_of};
use delivery::{
    Delivery, Failure, Numbers, ResponseBody, age_at, closes, failure_page, finish, open_delivery,
    open_synthetic, print_delivery,
};
use http_heads::{RequestHead, ResponseHead, with_field};
use std::alloc::{AllocError, Global};
use units::Text;

/// What is sent of an object to a request: the request's number, the object's (`-` for one that isn't stored) and its age, a
/// bar, the request, a bar, and the object. The object is stored, or of a passed fetch.
pub fn delivered_shown(alloc: Global, passed: bool, row: &str) -> Result<String, AllocError> {
    let (numbers, texts) = row.split_once('|').unwrap_or((row, ""));
    let (asked, object) = texts.split_once('|').unwrap_or((texts, ""));
    let asked = request_of(alloc, asked)?;
    let (object, text) = response_of(alloc, object)?;
    let head = opened(alloc, numbers, &object)?;
    sent_shown(alloc, &asked, head, ResponseBody { text, passed })
}

fn opened(alloc: Global, words: &str, object: &ResponseHead) -> Result<ResponseHead, AllocError> {
    let (round, rest) = words.split_once(' ').unwrap_or((words, ""));
    let (number, age) = rest.split_once(' ').unwrap_or((rest, ""));
    let numbers = Numbers {
        round: round.parse::<u64>().unwrap_or(0),
        object: number.parse::<u64>().ok(),
    };
    let age = age.parse::<u64>().unwrap_or(1);
    let ResponseHead {
        status,
        reason,
        fields,
        ..
    } = object;
    open_delivery(alloc, *status, reason, fields, numbers, age)
}

/// What is sent where VCL makes the response: the status, the request's number and the reason, a bar, the request, a bar, and
/// the body as text/plain.
pub fn synthetic_shown(alloc: Global, row: &str) -> Result<String, AllocError> {
    let (words, texts) = row.split_once('|').unwrap_or((row, ""));
    let (asked, body) = texts.split_once('|').unwrap_or((texts, ""));
    let asked = request_of(alloc, asked)?;
    let head = synthetic(alloc, words)?;
    let text = Text::of(alloc, body.as_bytes())?;
    let passed = false;
    sent_shown(alloc, &asked, head, ResponseBody { text, passed })
}

fn synthetic(alloc: Global, words: &str) -> Result<ResponseHead, AllocError> {
    let (status, rest) = words.split_once(' ').unwrap_or((words, ""));
    let (round, reason) = rest.split_once(' ').unwrap_or((rest, ""));
    let status = status.parse::<u16>().unwrap_or(0);
    let round = round.parse::<u64>().unwrap_or(0);
    let reason = Text::of(alloc, reason.as_bytes())?;
    let mut head = open_synthetic(alloc, status, &reason, round)?;
    head.fields = with_field(alloc, head.fields, b"Content-Type", b"text/plain")?;
    Ok(head)
}

fn sent_shown(
    alloc: Global,
    asked: &RequestHead,
    head: ResponseHead,
    body: ResponseBody,
) -> Result<String, AllocError> {
    let sent = finish(alloc, asked, &asked.fields, head, body)?;
    delivery_shown(alloc, &sent)
}

/// What is sent where VCL fails.
pub fn failure_page_shown(alloc: Global) -> Result<String, AllocError> {
    delivery_shown(alloc, &failure_page(alloc)?)
}

// The bytes, and whether the connection is closed behind them.
fn delivery_shown(alloc: Global, sent: &Delivery) -> Result<String, AllocError> {
    let text = print_delivery(alloc, sent)?;
    let end = if closes(sent) { "closes" } else { "stays" };
    format!(in alloc; "{end} {text:?}")
}

/// The age of what was made at one moment, at another.
pub fn age_shown(alloc: Global, row: &str) -> Result<String, AllocError> {
    let (origin, moment) = row.split_once(' ').unwrap_or((row, ""));
    let origin = origin.parse::<i64>().unwrap_or(0);
    let age = age_at(origin, moment.parse::<u64>().unwrap_or(0));
    format!(in alloc; "{age}")
}

/// The reason of a failure.
pub fn reason_shown(alloc: Global, name: &str) -> Result<String, AllocError> {
    let reason = match name {
        "TooManyRestarts" => Failure::TooManyRestarts.reason(),
        "VclFailed" => Failure::VclFailed.reason(),
        _ => Failure::FetchFailed.reason(),
    };
    let reason = Text::of(alloc, reason)?;
    format!(in alloc; "{reason:?}")
}
