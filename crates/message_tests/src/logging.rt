// Lines of the access log.
use crate::heads::{request_of, response_of};
use access_log::{Exchange, write_line, write_moment};
use http_heads::{RequestHead, ResponseHead};
use std::alloc::{AllocError, Global};
use units::Text;

/// The line of an exchange: the client's address, the seconds since the beginning of 1970, the milliseconds that it took and the bytes
/// of the body, a bar, the request, a bar, and the response's head. A message that isn't there has no text.
pub fn logged_shown(alloc: Global, row: &str) -> Result<String, AllocError> {
    let (words, texts) = row.split_once('|').unwrap_or((row, ""));
    let (address, numbers) = words.split_once(' ').unwrap_or((words, ""));
    let (seconds, counts) = numbers.split_once(' ').unwrap_or((numbers, ""));
    let exchange = exchange_of(alloc, address, counts, texts)?;
    let moment = write_moment(alloc, seconds.parse::<u64>().unwrap_or(0))?;
    let line = Text::from_vec(write_line(alloc, &exchange, moment.bytes())?)?;
    format!(in alloc; "{line:?}")
}

fn exchange_of(
    alloc: Global,
    address: &str,
    counts: &str,
    texts: &str,
) -> Result<Exchange, AllocError> {
    let (millis, sent) = counts.split_once(' ').unwrap_or((counts, ""));
    let (asked, answered) = texts.split_once('|').unwrap_or((texts, ""));
    Ok(Exchange {
        address: Text::of(alloc, address.as_bytes())?,
        request: asked_of(alloc, asked)?,
        response: answered_of(alloc, answered)?,
        sent: sent.parse::<u64>().unwrap_or(0),
        millis: millis.parse::<u64>().unwrap_or(0),
    })
}

fn asked_of(alloc: Global, text: &str) -> Result<Option<RequestHead>, AllocError> {
    if text.is_empty() {
        Ok(None)
    } else {
        Ok(Some(request_of(alloc, text)?))
    }
}

fn answered_of(alloc: Global, text: &str) -> Result<Option<ResponseHead>, AllocError> {
    if text.is_empty() {
        Ok(None)
    } else {
        let answered = response_of(alloc, text)?;
        Ok(Some(answered.0))
    }
}
