// A byte of a chunk's line.
ghost use Rattle.std.specs.Prelude.{◌≡◌, ◌<◌, ◌≤◌, ◌⊎◌, true, false, IfOk, IfErr};
ghost use Rattle.std.specs.Char.{is_ascii_hexdigit, digit_value};
ghost use Rattle.http_bodies.specs.Places.{IsNext, IsRefusal, IsSound};
ghost use Rattle.http_bodies.specs.declared.place.Place.{Place};
ghost use Rattle.http_bodies.specs.declared.place.LinePart.{LinePart};

use crate::BodyError;
use crate::place::{LinePart, Place};
use httparse::{is_space_or_tab, parse_hex_digit};

// The most bytes of a chunk's line.
const MAX_LINE: u64 = 32768;

// The most bytes that all of a body's lines may have beyond their digits and ends.
pub(crate) const MAX_SPARE: u64 = 32768;

// The most digits of a chunk's size.
const MAX_DIGITS: u64 = 16;

// CR LF.
const LINE_END: u64 = 2;

// The most bytes and fields of a trailer.
const MAX_TRAILER: u64 = 32768;

const MAX_FIELDS: u64 = 64;

/// A byte where a digit of the size may stand.
pub(crate) fn size_byte(
    digits: u64,
    size: u64,
    spare: u64,
    byte: u8,
    room: u64,
) -> Result<Place, BodyError>
    requires { IsSound (Place.Line (LinePart.Size digits size spare)) room }
    ensures next { IfOk result (IsNext (LinePart.Size digits size spare) byte) }
    ensures sound { IfOk result (λ next. IsSound next room) }
    ensures refused { IfErr result (IsRefusal (LinePart.Size digits size spare) byte room) }
{
    match parse_hex_digit(byte) {
        Some(digit) => digit_byte(digits, size, spare, byte, digit, room),
        None => {
            if digits == 0 {
                return Err(BodyError::BadChunk);
            }
            blanks_byte(size, MAX_LINE - digits, spare, byte, room)
        }
    }
}

// One digit more.
fn digit_byte(
    digits: u64,
    size: u64,
    spare: u64,
    byte: u8,
    digit: u64,
    room: u64,
) -> Result<Place, BodyError>
    requires sound { IsSound (Place.Line (LinePart.Size digits size spare)) room }
    requires hex { is_ascii_hexdigit byte ≡ true }
    requires value { digit ≡ digit_value byte }
    ensures next { IfOk result (IsNext (LinePart.Size digits size spare) byte) }
    ensures sound { IfOk result (λ next. IsSound next room) }
    ensures refused { IfErr result (IsRefusal (LinePart.Size digits size spare) byte room) }
{
    if digits == MAX_DIGITS {
        return Err(BodyError::BadChunk);
    }
    let grown = u128::from(size) * 16 + u128::from(digit);
    if grown > u128::from(room) {
        return Err(BodyError::TooLarge);
    }
    Ok(Place::Line(LinePart::Size {
        digits: digits + 1,
        size: grown as u64,
        spare,
    }))
}

// Whether no byte more may come of a line before its end.
fn is_full(left: u64, spare: u64) -> bool
    ensures full { result ≡ true → (left ≤ 2) ⊎ (spare ≡ 0) }
    ensures open { result ≡ false → (2 < left) × (0 < spare) }
{
    left <= LINE_END || spare == 0
}

/// A byte behind the size, where `left` bytes may still come of the line.
pub(crate) fn blanks_byte(
    size: u64,
    left: u64,
    spare: u64,
    byte: u8,
    room: u64,
) -> Result<Place, BodyError>
    requires { IsSound (Place.Line (LinePart.Blanks size left spare)) room }
    ensures next { IfOk result (IsNext (LinePart.Blanks size left spare) byte) }
    ensures sound { IfOk result (λ next. IsSound next room) }
    ensures refused { IfErr result (IsRefusal (LinePart.Blanks size left spare) byte room) }
{
    if byte == b'\r' {
        return Ok(Place::Line(LinePart::LineFeed { size, spare }));
    }
    if is_full(left, spare) {
        return Err(BodyError::BadChunk);
    }
    let (left, spare) = (left - 1, spare - 1);
    if is_space_or_tab(byte) {
        return Ok(Place::Line(LinePart::Blanks { size, left, spare }));
    }
    if byte == b';' {
        return Ok(Place::Line(LinePart::Extension { size, left, spare }));
    }
    Err(BodyError::BadChunk)
}

/// A byte of the extension, where `left` bytes may still come of the line.
pub(crate) fn extension_byte(
    size: u64,
    left: u64,
    spare: u64,
    byte: u8,
    room: u64,
) -> Result<Place, BodyError>
    requires { IsSound (Place.Line (LinePart.Extension size left spare)) room }
    ensures next { IfOk result (IsNext (LinePart.Extension size left spare) byte) }
    ensures sound { IfOk result (λ next. IsSound next room) }
    ensures refused { IfErr result (IsRefusal (LinePart.Extension size left spare) byte room) }
{
    if byte == b'\r' {
        return Ok(Place::Line(LinePart::LineFeed { size, spare }));
    }
    if byte == b'\n' {
        return Err(BodyError::BadChunk);
    }
    if is_full(left, spare) {
        return Err(BodyError::BadChunk);
    }
    Ok(Place::Line(LinePart::Extension {
        size,
        left: left - 1,
        spare: spare - 1,
    }))
}

/// The byte behind the line's CR.
pub(crate) fn line_feed_byte(size: u64, spare: u64, byte: u8, room: u64) -> Result<Place, BodyError>
    requires { IsSound (Place.Line (LinePart.LineFeed size spare)) room }
    ensures next { IfOk result (IsNext (LinePart.LineFeed size spare) byte) }
    ensures sound { IfOk result (λ next. IsSound next room) }
    ensures refused { IfErr result (IsRefusal (LinePart.LineFeed size spare) byte room) }
{
    if byte != b'\n' {
        return Err(BodyError::BadChunk);
    }
    if size == 0 {
        return Ok(Place::Line(LinePart::TrailerLine {
            fields: MAX_FIELDS,
            left: MAX_TRAILER,
        }));
    }
    Ok(Place::Data { left: size, spare })
}

/// The byte behind a chunk's data.
pub(crate) fn data_return_byte(spare: u64, byte: u8, room: u64) -> Result<Place, BodyError>
    ensures next { IfOk result (IsNext (LinePart.DataReturn spare) byte) }
    ensures sound { IfOk result (λ next. IsSound next room) }
    ensures refused { IfErr result (IsRefusal (LinePart.DataReturn spare) byte room) }
{
    if byte != b'\r' {
        return Err(BodyError::BadChunk);
    }
    Ok(Place::Line(LinePart::DataFeed { spare }))
}

/// The byte behind the CR that ends a chunk's data.
pub(crate) fn data_feed_byte(spare: u64, byte: u8, room: u64) -> Result<Place, BodyError>
    ensures next { IfOk result (IsNext (LinePart.DataFeed spare) byte) }
    ensures sound { IfOk result (λ next. IsSound next room) }
    ensures refused { IfErr result (IsRefusal (LinePart.DataFeed spare) byte room) }
{
    if byte != b'\n' {
        return Err(BodyError::BadChunk);
    }
    Ok(Place::Line(LinePart::Size {
        digits: 0,
        size: 0,
        spare,
    }))
}
