// A byte of the trailer.
ghost use Rattle.std.specs.Prelude.{IfOk, IfErr};
ghost use Rattle.http_bodies.specs.Places.{IsNext, IsRefusal, IsSound};
ghost use Rattle.http_bodies.specs.declared.place.Place.{Place};
ghost use Rattle.http_bodies.specs.declared.place.LinePart.{LinePart};

use crate::BodyError;
use crate::place::{LinePart, Place};
use httparse::{is_header_name_token, is_header_value_token};

// The fewest bytes of a field's line from its name on, and of the empty line behind it.
const MIN_FIELD: u64 = 4;

// The fewest bytes of a field's line from its value's last byte on, and of the empty line behind it.
const MIN_VALUE: u64 = 3;

/// The first byte of a line.
pub(crate) fn trailer_byte(fields: u64, left: u64, byte: u8, room: u64) -> Result<Place, BodyError>
    requires { IsSound (Place.Line (LinePart.TrailerLine fields left)) room }
    ensures next { IfOk result (IsNext (LinePart.TrailerLine fields left) byte) }
    ensures sound { IfOk result (λ next. IsSound next room) }
    ensures refused { IfErr result (IsRefusal (LinePart.TrailerLine fields left) byte room) }
{
    if byte == b'\n' {
        return Ok(Place::Whole);
    }
    if byte == b'\r' && left > 1 {
        return Ok(Place::Line(LinePart::LastFeed));
    }
    if !is_header_name_token(byte) || fields == 0 || left < MIN_FIELD {
        return Err(BodyError::BadChunk);
    }
    Ok(Place::Line(LinePart::FieldName {
        fields: fields - 1,
        left: left - 1,
    }))
}

/// A byte of a field's name, or the colon behind it.
pub(crate) fn name_byte(fields: u64, left: u64, byte: u8, room: u64) -> Result<Place, BodyError>
    requires { IsSound (Place.Line (LinePart.FieldName fields left)) room }
    ensures next { IfOk result (IsNext (LinePart.FieldName fields left) byte) }
    ensures sound { IfOk result (λ next. IsSound next room) }
    ensures refused { IfErr result (IsRefusal (LinePart.FieldName fields left) byte room) }
{
    if byte == b':' {
        return Ok(Place::Line(LinePart::FieldValue {
            fields,
            left: left - 1,
        }));
    }
    if !is_header_name_token(byte) || left < MIN_FIELD {
        return Err(BodyError::BadChunk);
    }
    Ok(Place::Line(LinePart::FieldName {
        fields,
        left: left - 1,
    }))
}

/// A byte of a field's value, or of the line's end.
pub(crate) fn value_byte(fields: u64, left: u64, byte: u8, room: u64) -> Result<Place, BodyError>
    requires { IsSound (Place.Line (LinePart.FieldValue fields left)) room }
    ensures next { IfOk result (IsNext (LinePart.FieldValue fields left) byte) }
    ensures sound { IfOk result (λ next. IsSound next room) }
    ensures refused { IfErr result (IsRefusal (LinePart.FieldValue fields left) byte room) }
{
    if byte == b'\n' {
        return Ok(Place::Line(LinePart::TrailerLine {
            fields,
            left: left - 1,
        }));
    }
    if left < MIN_VALUE {
        return Err(BodyError::BadChunk);
    }
    if byte == b'\r' {
        return Ok(Place::Line(LinePart::FieldFeed {
            fields,
            left: left - 1,
        }));
    }
    if !is_header_value_token(byte) {
        return Err(BodyError::BadChunk);
    }
    Ok(Place::Line(LinePart::FieldValue {
        fields,
        left: left - 1,
    }))
}

/// The byte behind the CR of a field's line.
pub(crate) fn field_feed_byte(
    fields: u64,
    left: u64,
    byte: u8,
    room: u64,
) -> Result<Place, BodyError>
    requires { IsSound (Place.Line (LinePart.FieldFeed fields left)) room }
    ensures next { IfOk result (IsNext (LinePart.FieldFeed fields left) byte) }
    ensures sound { IfOk result (λ next. IsSound next room) }
    ensures refused { IfErr result (IsRefusal (LinePart.FieldFeed fields left) byte room) }
{
    if byte != b'\n' {
        return Err(BodyError::BadChunk);
    }
    Ok(Place::Line(LinePart::TrailerLine {
        fields,
        left: left - 1,
    }))
}

/// The byte behind the CR of the empty line.
pub(crate) fn last_feed_byte(byte: u8, room: u64) -> Result<Place, BodyError>
    ensures next { IfOk result (IsNext LinePart.LastFeed byte) }
    ensures sound { IfOk result (λ next. IsSound next room) }
    ensures refused { IfErr result (IsRefusal LinePart.LastFeed byte room) }
{
    if byte != b'\n' {
        return Err(BodyError::BadChunk);
    }
    Ok(Place::Whole)
}
