// Where a body ends.
ghost use Rattle.std.specs.Prelude.{◌≡◌, ◌≢◌, ◌↔◌, ◌<◌, ℕ, codes, not, ◌||◌, true, false, IsTrue, Ok, Err, IfOk, IfSome, IsSomeAnd, MatchOption};
ghost use Rattle.units.specs.Folding.{folded};
ghost use Rattle.http_heads.specs.Fields.{is_named, count_of, first_value};
ghost use Rattle.http_bodies.specs.Framings.{length_name, coding_name, length_number, is_length, says_length, has_body, reply_kind, Frames};
ghost use Rattle.http_bodies.specs.declared.framing.Framing.{Framing as Way};
ghost use Rattle.http_bodies.specs.declared.framing.BodyError.TheVariants.{NoMemory};

use http_heads::{Field, Fields};
use std::alloc::AllocError;
use std::error::Error;
use std::fmt::{self, Display, Formatter, Write};
use units::{fold_eq, value_of_digits};

/// Whose body it is.
#[derive(Clone, Copy, Debug, PartialEq, Eq)]
pub enum Kind {
    Request,
    Reply,
    /// A reply with a status of 1xx: it has no body, and the final reply stands behind it (behind 101 another protocol).
    Interim,
    /// A final reply to HEAD, or one with the status 204 or 304: it has no body, whatever its fields say.
    NoBody,
}

/// Where a body ends.
#[derive(Clone, Copy, Debug, PartialEq, Eq)]
pub enum Framing {
    /// There is no body.
    Nothing,
    /// After so many bytes.
    Length(u64),
    /// With its last chunk.
    Chunked,
    /// With the connection.
    UntilEnd,
}

/// Why a body is refused.
#[derive(Clone, Copy, Debug, PartialEq, Eq)]
pub enum BodyError {
    /// A Content-Length is no number of 64 bits, or two differ.
    BadLength,
    /// Content-Length and Transfer-Encoding, or a coding other than one `chunked`.
    TwoFramings,
    /// The bytes are no chunks within the limits of their lines.
    BadChunk,
    /// The body is longer than the limit.
    TooLarge,
    /// The body isn't whole.
    Early,
    NoMemory,
}

impl From<AllocError> for BodyError {
    ghost from_gives = { λ _ e. e ≡ NoMemory };

    fn from(_: AllocError) -> BodyError {
        BodyError::NoMemory
    }
}

impl Display for BodyError {
    fn fmt<W: Write>(&self, f: &mut Formatter<W>) -> fmt::Result {
        f.write_str(match self {
            BodyError::BadLength => "a Content-Length is no number, or two differ",
            BodyError::TwoFramings => "both a length and a coding, or a coding other than chunked",
            BodyError::BadChunk => "the bytes are no chunks",
            BodyError::TooLarge => "the body is longer than the limit",
            BodyError::Early => "the body isn't whole",
            BodyError::NoMemory => "out of memory",
        })
    }
}

impl Error for BodyError {}

/// The kind of a reply with this status, by its status and whether the request was HEAD (RFC 9112, section 6.3).
pub fn kind_of_reply(status: u16, to_head: bool) -> Kind
    ensures { result ≡ reply_kind status to_head }
{
    if (100..200).contains(&status) {
        Kind::Interim
    } else if to_head || status == 204 || status == 304 {
        Kind::NoBody
    } else {
        Kind::Reply
    }
}

/// Where the body of a message with these fields ends (RFC 9112, section 6.3). `Interim` and `NoBody` look at no
/// field. It takes no memory.
pub fn frame(fields: &Fields, kind: Kind) -> Result<Framing, BodyError>
    ensures framed { IfOk result (Frames kind fields.now) }
    ensures only { (framing : Way) → Frames kind fields.now framing → result ≡ Ok framing }
    ensures both { IsTrue (has_body kind) → 0 < count_of length_name fields.now → 0 < count_of coding_name fields.now
        → result ≡ Err BodyError.TwoFramings }
    ensures other_coding { IsTrue (has_body kind) → count_of length_name fields.now ≡ 0 → count_of coding_name fields.now ≡ 1
        → IfSome (first_value coding_name fields.now) (λ coding. folded coding ≢ codes "chunked" → result ≡ Err BodyError.TwoFramings) }
    ensures codings { IsTrue (has_body kind) → 1 < count_of coding_name fields.now → result ≡ Err BodyError.TwoFramings }
    ensures no_length { IsTrue (has_body kind) → 0 < count_of length_name fields.now → count_of coding_name fields.now ≡ 0
        → ((n : ℕ) → ¬ (IsTrue (says_length n fields.now))) → result ≡ Err BodyError.BadLength }
{
    if matches!(kind, Kind::Interim | Kind::NoBody) {
        return Ok(Framing::Nothing);
    }
    let lengths = fields.count(b"content-length");
    let codings = fields.count(b"transfer-encoding");
    if codings > 0 {
        if lengths == 0 && codings == 1 && is_chunked(fields) {
            return Ok(Framing::Chunked);
        }
        return Err(BodyError::TwoFramings);
    }
    if lengths > 0 {
        return match said_length(fields) {
            Some(length) => Ok(Framing::Length(length)),
            None => Err(BodyError::BadLength),
        };
    }
    match kind {
        Kind::Reply => Ok(Framing::UntilEnd),
        _ => Ok(Framing::Nothing),
    }
}

// Whether the first Transfer-Encoding is `chunked`.
fn is_chunked(fields: &Fields) -> bool
    ensures { IsTrue result ↔ IsSomeAnd (first_value coding_name fields.now) (λ coding. folded coding ≡ codes "chunked") }
{
    match fields.first(b"transfer-encoding") {
        Some(coding) => fold_eq(coding.bytes(), b"chunked"),
        None => false,
    }
}

// The length that every Content-Length says.
fn said_length(fields: &Fields) -> Option<u64>
    requires { 0 < count_of length_name fields.now }
    ensures { MatchOption result ((n : ℕ) → ¬ (IsTrue (says_length n fields.now))) (λ n. IsTrue (says_length n fields.now)
        × ((m : ℕ) → IsTrue (says_length m fields.now) → m ≡ n)) }
{
    let first = match fields.first(b"content-length") {
        Some(first) => first,
        None => return None,
    };
    let length = match length_of(first.bytes()) {
        Some(length) => length,
        None => return None,
    };
    if all_agree(fields.as_slice(), length) {
        Some(length)
    } else {
        None
    }
}

fn length_of(value: &[u8]) -> Option<u64>
    ensures { result ≡ length_number value.now }
{
    if value.is_empty() {
        return None;
    }
    value_of_digits(value)
}

fn all_agree(fields: &[Field], length: u64) -> bool
    ensures { result ≡ says_length length fields.now }
{
    fields.iter().all(|field| agrees(length, field))
}

fn agrees(length: u64, field: &Field) -> bool
    ensures { result ≡ (not (is_named length_name field.now) || is_length length field.now.value) }
{
    if !fold_eq(b"content-length", field.name.bytes()) {
        return true;
    }
    match length_of(field.value.bytes()) {
        Some(said) => said == length,
        None => false,
    }
}
