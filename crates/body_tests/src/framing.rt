// What fields and a status say of a body, and fields that say where one ends.
use crate::fields::{fields_of, fields_shown};
use http_bodies::{Kind, frame, kind_of_reply, unframed, with_length};
use std::alloc::{AllocError, Global};

/// Where the body ends of a request, a reply, a reply to which no body belongs, and an interim reply, by the fields.
pub fn frames_shown(alloc: Global, words: &str) -> Result<String, AllocError> {
    let fields = fields_of(alloc, words)?;
    let mut out = String::new(alloc);
    for kind in [Kind::Request, Kind::Reply, Kind::NoBody, Kind::Interim] {
        let framing = frame(&fields, kind);
        let comma = if out.is_empty() { "" } else { ", " };
        write!(out, "{comma}{kind:?} {framing:?}")?;
    }
    Ok(out)
}

/// What a reply of this status is, and one to a HEAD request.
pub fn kinds_shown(alloc: Global, status: &str) -> Result<String, AllocError> {
    let status = status.parse::<u16>().unwrap_or(0);
    let plain = kind_of_reply(status, false);
    let to_head = kind_of_reply(status, true);
    format!(in alloc; "{plain:?}, {to_head:?} to HEAD")
}

/// The fields without those that say where a body ends.
pub fn unframed_shown(alloc: Global, words: &str) -> Result<String, AllocError> {
    fields_shown(alloc, &unframed(fields_of(alloc, words)?))
}

/// The fields of a message with a body of so many bytes.
pub fn lengthened_shown(alloc: Global, row: &str) -> Result<String, AllocError> {
    let (length, words) = row.split_once(' ').unwrap_or((row, ""));
    let length = length.parse::<u64>().unwrap_or(0);
    let fields = with_length(alloc, fields_of(alloc, words)?, length)?;
    fields_shown(alloc, &fields)
}
