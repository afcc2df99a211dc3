// How far the request goes at whose front the bytes stand that came.
ghost use Rattle.std.specs.Prelude.{length};
ghost use Rattle.message_reader.specs.Extents.{IsWithin};

use crate::watch::Watch;
use http_bodies::{BodyReader, Framing, Kind, frame};
use http_heads::{RequestHead, is_listed, read_request};
use std::alloc::Global;

/// The most bytes of a request's body.
pub const MAX_REQUEST_BODY: u64 = 1_048_576;

/// What is known of the request at the front of some bytes.
#[derive(Clone, Copy, Debug, PartialEq, Eq)]
pub enum Extent {
    /// More bytes belong to it.
    Part,
    /// It has so many bytes.
    Whole(usize),
    /// No request stands there, whatever follows; or there is no memory to tell.
    Refused,
}

// How much of a request was found.
#[derive(Drop)]
enum Found {
    /// No head yet.
    Nothing,
    /// The head, and that the request has so many bytes.
    Sized(usize),
    /// The head, and chunks, which were looked at up to this place.
    Chunks(BodyReader, usize),
}

/// Looks for the end of a request while its bytes come. Each byte is looked at a bounded number of times, however they are cut.
#[derive(Drop)]
pub struct RequestGauge {
    watch: Watch,
    found: Found,
    wants_leave: bool,
}

// How far a request goes that has so many bytes.
fn extent_of_size(size: usize, bytes: &[u8]) -> Extent
    ensures { IsWithin bytes.now result }
{
    if size <= bytes.len() {
        Extent::Whole(size)
    } else {
        Extent::Part
    }
}

// What was found of a request whose head is whole and ends at this place. None where its fields refuse it.
fn found_behind(alloc: Global, head: &RequestHead, end: usize) -> Option<Found> {
    match frame(&head.fields, Kind::Request).ok()? {
        Framing::Nothing => Some(Found::Sized(end)),
        Framing::Length(length) => {
            if length > MAX_REQUEST_BODY {
                return None;
            }
            Some(Found::Sized(end.saturating_add(length as usize)))
        }
        framing => Some(Found::Chunks(BodyReader::of(alloc, framing, MAX_REQUEST_BODY), end)),
    }
}

impl RequestGauge {
    /// Nothing was looked at yet.
    pub fn new() -> RequestGauge {
        RequestGauge {
            watch: Watch::new(),
            found: Found::Nothing,
            wants_leave: false,
        }
    }

    /// How far the request goes at the front of these bytes, which begin with those of the calls before. `Refused` where its body has
    /// over 1,048,576 bytes.
    pub fn measure(&mut self, alloc: Global, bytes: &[u8]) -> Extent
        ensures { IsWithin bytes.now result }
    {
        if matches!(self.found, Found::Nothing) {
            if !self.watch.is_due(bytes) {
                return Extent::Part;
            }
            match self.find_head(alloc, bytes) {
                Extent::Whole(_) => {}
                other => return other,
            }
        }
        self.measure_body(bytes)
    }

    // Looks for the head: `Whole` where it is there.
    fn find_head(&mut self, alloc: Global, bytes: &[u8]) -> Extent
        ensures { IsWithin bytes.now result }
    {
        match read_request(alloc, bytes) {
            Ok(Some((head, end))) => match found_behind(alloc, &head, end) {
                Some(found) => {
                    self.wants_leave = head.version == 11
                        && is_listed(&head.fields, b"expect", b"100-continue");
                    self.found = found;
                    Extent::Whole(end)
                }
                None => Extent::Refused,
            },
            Ok(None) => Extent::Part,
            Err(_) => Extent::Refused,
        }
    }

    // Looks for the end of the body, whose head is there.
    fn measure_body(&mut self, bytes: &[u8]) -> Extent
        ensures { IsWithin bytes.now result }
    {
        match &mut self.found {
            Found::Nothing => Extent::Part,
            Found::Sized(size) => extent_of_size(*size, bytes),
            Found::Chunks(reader, at) => {
                let new = &bytes[(*at).min(bytes.len())..];
                match reader.feed(new) {
                    Ok(count) => {
                        *at = at.saturating_add(count);
                        if reader.done() {
                            extent_of_size(*at, bytes)
                        } else {
                            Extent::Part
                        }
                    }
                    Err(_) => Extent::Refused,
                }
            }
        }
    }

    /// Whether the request's head is there and asks for leave to send its body (RFC 9110, section 10.1.1); told once.
    pub fn takes_leave(&mut self) -> bool {
        let wants = self.wants_leave;
        self.wants_leave = false;
        wants
    }
}
