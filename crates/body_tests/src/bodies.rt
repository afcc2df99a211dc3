// Bodies, whole and in pieces.
ghost use Rattle.std.specs.Prelude.{◌≤◌, length};

use crate::texts::bytes_of;
use http_bodies::{BodyError, BodyReader, Framing, read_body};
use std::alloc::{AllocError, Global};
use units::Text;

// The most bytes that are read once for each place between them.
const SHORT: usize = 100;

/// The body and how many of the bytes it takes, or its refusal and the byte at which that is known; and whether each cut of
/// the bytes into two says the same.
pub fn body_shown(alloc: Global, framing: &str, rest: &str) -> Result<String, AllocError> {
    let (limit, text) = rest.split_once(' ').unwrap_or((rest, ""));
    let limit = limit.parse::<u64>().unwrap_or(0);
    let framing = framing_of(framing);
    let bytes = bytes_of(alloc, text)?;
    let mut out = whole_shown(alloc, framing, limit, bytes.as_slice())?;
    if let Some(at) = refused_at(alloc, framing, limit, bytes.as_slice()) {
        write!(out, " at {at}")?;
    }
    if bytes.len() <= SHORT {
        out.push_str(cuts_word(alloc, framing, limit, bytes.as_slice()))?;
    }
    Ok(out)
}

fn framing_of(word: &str) -> Framing {
    match word.split_once('=') {
        Some((_, length)) => Framing::Length(length.parse::<u64>().unwrap_or(0)),
        None => match word {
            "chunked" => Framing::Chunked,
            "until_end" => Framing::UntilEnd,
            _ => Framing::Nothing,
        },
    }
}

fn whole_shown(
    alloc: Global,
    framing: Framing,
    limit: u64,
    bytes: &[u8],
) -> Result<String, AllocError> {
    match read_body(alloc, framing, limit, bytes) {
        Ok((body, count)) => format!(in alloc; "{body:?} of {count}"),
        Err(error) => format!(in alloc; "{error:?}"),
    }
}

// Where the body is refused when it comes byte by byte; each later byte must be refused so too.
fn refused_at(alloc: Global, framing: Framing, limit: u64, bytes: &[u8]) -> Option<usize> {
    let mut reader = BodyReader::of(alloc, framing, limit);
    let mut first = None;
    for (at, byte) in bytes.iter().enumerate() {
        match (reader.feed(&[*byte]), first) {
            (Ok(_), None) => {}
            (Err(error), None) => first = Some((at, error)),
            (Err(error), Some((_, same))) if error == same => {}
            _ => return None,
        }
    }
    first.map(|(at, _)| at)
}

// How a body ends that comes in two pieces.
fn read_in_two(
    alloc: Global,
    framing: Framing,
    limit: u64,
    first: &[u8],
    second: &[u8],
) -> Result<Text, BodyError> {
    let mut reader = BodyReader::of(alloc, framing, limit);
    reader.feed(first)?;
    reader.feed(second)?;
    reader.finish()
}

fn cuts_word(alloc: Global, framing: Framing, limit: u64, bytes: &[u8]) -> &'static str {
    for at in 0..=bytes.len() {
        if !is_same_cut(alloc, framing, limit, bytes, at) {
            return ", but otherwise in pieces";
        }
    }
    ""
}

fn is_same_cut(alloc: Global, framing: Framing, limit: u64, bytes: &[u8], at: usize) -> bool
    requires { at ≤ length bytes.now }
{
    let cut = read_in_two(alloc, framing, limit, &bytes[..at], &bytes[at..]);
    match (cut, read_body(alloc, framing, limit, bytes)) {
        (Ok(body), Ok((whole, _))) => body.bytes() == whole.bytes(),
        (Err(error), Err(refusal)) => error == refusal,
        _ => false,
    }
}
