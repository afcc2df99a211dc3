// One step of a reader: a byte of a line, or what is there of a chunk's data.
ghost use Rattle.std.specs.Prelude.{◌≡◌, ◌≢◌, ◌-◌, ◌++◌, ◌<◌, ◌≤◌, ◌⊎◌, ℕ, List, min, take, length, IfOk, IfErr, IsErrOf, OnErr};
ghost use Rattle.http_bodies.specs.Bodies.{IsChunked};
ghost use Rattle.http_bodies.specs.Reading.{ReaderState, Follows, state};
ghost use Rattle.http_bodies.specs.Places.{IsNext, IsRefusal, IsSound, IsReader};
ghost use Rattle.http_bodies.specs.Answers.{Refuses};
ghost use Rattle.http_bodies.specs.declared.place.Place.{Place};
ghost use Rattle.http_bodies.specs.declared.place.LinePart.{LinePart};

use crate::BodyError;
use crate::line::{
    blanks_byte, data_feed_byte, data_return_byte, extension_byte, line_feed_byte, size_byte,
};
use crate::place::{LinePart, Place};
use crate::trailer::{field_feed_byte, last_feed_byte, name_byte, trailer_byte, value_byte};

/// One step at a place where bytes are due. The piece has a byte at least.
pub(crate) fn step(
    place: Place,
    kept: &mut Vec<u8>,
    limit: u64,
    piece: &[u8],
) -> Result<(usize, Place), BodyError>
    requires some { 0 < length piece.now }
    requires open { place ≢ Place.Whole }
    requires sound { IsSound place (limit - length kept.old.items) }
    requires fits { length kept.old.items ≤ limit }
    ensures count { IfOk result (λ r. (0 < r.0) × (r.0 ≤ length piece.now)) }
    ensures sound { IfOk result (λ r. IsSound r.1 (limit - length kept.new.items) × (length kept.new.items ≤ limit)) }
    ensures grows { IfOk result (λ r. (more : List ℕ) × (kept.new.items ≡ kept.old.items ++ more)) }
    ensures follows { IfOk result (λ r. Follows (state place kept.old.items limit) (state r.1 kept.new.items limit) (take r.0 piece.now)) }
    ensures refused { IfErr result (λ e. e ≢ BodyError.NoMemory → Refuses (state place kept.old.items limit) piece.now e) }
    ensures kept { OnErr result (kept.new.items ≡ kept.old.items) }
{
    let room = limit - kept.len() as u64;
    match place {
        Place::Whole => Ok((0, Place::Whole)),
        Place::Sized(left) => sized_step(kept, piece, left),
        Place::Open => open_step(kept, piece, room),
        Place::Data { left, spare } => data_step(kept, piece, left, spare),
        Place::Line(part) => {
            let next = line_byte(part, piece[0], room)?;
            Ok((1, next))
        }
        Place::Refused(error) => Err(error),
    }
}

// Takes bytes of a body of which `left` are due.
fn sized_step(kept: &mut Vec<u8>, piece: &[u8], left: u64) -> Result<(usize, Place), BodyError>
    requires left { 0 < left }
    requires some { 0 < length piece.now }
    ensures count { IfOk result (λ r. (0 < r.0) × (r.0 ≤ length piece.now)) }
    ensures sound { IfOk result (λ r. (limit : ℕ) → left ≤ limit - length kept.old.items
        → IsSound r.1 (limit - length kept.new.items) × (length kept.new.items ≤ limit)) }
    ensures grows { IfOk result (λ r. kept.new.items ≡ kept.old.items ++ take r.0 piece.now) }
    ensures follows { (limit : ℕ) → IfOk result (λ r. Follows (state (Place.Sized left) kept.old.items limit)
        (state r.1 kept.new.items limit) (take r.0 piece.now)) }
    ensures err { IfErr result (λ e. (e ≡ BodyError.NoMemory) × (kept.new.items ≡ kept.old.items)) }
{
    let count = keep(kept, piece, left)?;
    if count as u64 == left {
        return Ok((count, Place::Whole));
    }
    Ok((count, Place::Sized(left - count as u64)))
}

// Takes bytes of a chunk's data, of which `left` are due.
fn data_step(
    kept: &mut Vec<u8>,
    piece: &[u8],
    left: u64,
    spare: u64,
) -> Result<(usize, Place), BodyError>
    requires left { 0 < left }
    requires some { 0 < length piece.now }
    ensures count { IfOk result (λ r. (0 < r.0) × (r.0 ≤ length piece.now)) }
    ensures sound { IfOk result (λ r. (limit : ℕ) → left ≤ limit - length kept.old.items
        → IsSound r.1 (limit - length kept.new.items) × (length kept.new.items ≤ limit)) }
    ensures grows { IfOk result (λ r. kept.new.items ≡ kept.old.items ++ take r.0 piece.now) }
    ensures follows { (limit : ℕ) → IfOk result (λ r. Follows (state (Place.Data left spare) kept.old.items limit)
        (state r.1 kept.new.items limit) (take r.0 piece.now)) }
    ensures err { IfErr result (λ e. (e ≡ BodyError.NoMemory) × (kept.new.items ≡ kept.old.items)) }
{
    let count = keep(kept, piece, left)?;
    if count as u64 == left {
        return Ok((count, Place::Line(LinePart::DataReturn { spare })));
    }
    Ok((
        count,
        Place::Data {
            left: left - count as u64,
            spare,
        },
    ))
}

// Takes all, if there is room for it.
fn open_step(kept: &mut Vec<u8>, piece: &[u8], room: u64) -> Result<(usize, Place), BodyError>
    ensures count { IfOk result (λ r. r.0 ≡ length piece.now) }
    ensures place { IfOk result (λ r. r.1 ≡ Place.Open) }
    ensures kept { IfOk result (λ r. (kept.new.items ≡ kept.old.items ++ piece.now) × (length piece.now ≤ room)) }
    ensures large { IsErrOf result BodyError.TooLarge → room < length piece.now }
    ensures err { OnErr result (kept.new.items ≡ kept.old.items) }
    ensures kinds { IfErr result (λ e. (e ≡ BodyError.TooLarge) ⊎ (e ≡ BodyError.NoMemory)) }
{
    if piece.len() as u64 > room {
        return Err(BodyError::TooLarge);
    }
    kept.extend_from_slice(piece)?;
    Ok((piece.len(), Place::Open))
}

// Keeps the first bytes of the piece, at most `left`.
fn keep(kept: &mut Vec<u8>, piece: &[u8], left: u64) -> Result<usize, BodyError>
    ensures count { IfOk result (λ n. n ≡ min (length piece.now) left) }
    ensures ok { IfOk result (λ n. kept.new.items ≡ kept.old.items ++ take n piece.now) }
    ensures err { OnErr result (kept.new.items ≡ kept.old.items) }
    ensures cause { IfErr result (λ e. e ≡ BodyError.NoMemory) }
{
    let count = (piece.len() as u64).min(left) as usize;
    kept.extend_from_slice(&piece[..count])?;
    Ok(count)
}

// A byte of a line, where the body may have `room` bytes more.
fn line_byte(part: LinePart, byte: u8, room: u64) -> Result<Place, BodyError>
    requires { IsSound (Place.Line part) room }
    ensures next { IfOk result (IsNext part byte) }
    ensures sound { IfOk result (λ next. IsSound next room) }
    ensures refused { IfErr result (IsRefusal part byte room) }
{
    match part {
        LinePart::Size {
            digits,
            size,
            spare,
        } => size_byte(digits, size, spare, byte, room),
        LinePart::Blanks { size, left, spare } => blanks_byte(size, left, spare, byte, room),
        LinePart::Extension { size, left, spare } => extension_byte(size, left, spare, byte, room),
        LinePart::LineFeed { size, spare } => line_feed_byte(size, spare, byte, room),
        LinePart::DataReturn { spare } => data_return_byte(spare, byte, room),
        LinePart::DataFeed { spare } => data_feed_byte(spare, byte, room),
        LinePart::TrailerLine { fields, left } => trailer_byte(fields, left, byte, room),
        LinePart::FieldName { fields, left } => name_byte(fields, left, byte, room),
        LinePart::FieldValue { fields, left } => value_byte(fields, left, byte, room),
        LinePart::FieldFeed { fields, left } => field_feed_byte(fields, left, byte, room),
        LinePart::LastFeed => last_feed_byte(byte, room),
    }
}
