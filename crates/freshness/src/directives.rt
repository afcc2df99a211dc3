// Directives of Cache-Control that say a number of seconds.
ghost use Rattle.std.specs.Prelude.{◌≡◌, ◌≤◌, ◌<◌, ◌+◌, ◌*◌, ◌==◌, ◌∷◌, [], drop, min, length, IfSome, MatchOption};
ghost use Rattle.std.specs.List.{position_or_len};
ghost use Rattle.std.specs.Char.{digit_value};
ghost use Rattle.std.specs.Str.{bytes_eq};
ghost use Rattle.units.specs.Folding.{folded};
ghost use Rattle.http_heads.specs.Fields.{is_named};
ghost use Rattle.freshness.specs.Directives.{elements, first_given, said_by, directive as directive_of, seconds_of, most_seconds};

use http_heads::{Field, Fields};
use units::{fold_eq, trim_blanks};

/// The greatest number of seconds that a field can say.
pub const MAX_SECONDS: u64 = 1_000_000_000;

/// The seconds that the first directive of the name with a number says, over all Cache-Control fields.
pub fn directive(fields: &Fields, name: &[u8]) -> Option<u64>
    ensures value { result ≡ directive_of name.now fields.now }
    ensures bound { IfSome result (λ n. n ≤ most_seconds) }
{
    directive_in(fields.as_slice(), name)
}

fn directive_in(fields: &[Field], name: &[u8]) -> Option<u64>
    ensures value { result ≡ directive_of name.now fields.now }
    ensures bound { IfSome result (λ n. n ≤ most_seconds) }
{
    let (field, rest) = fields.split_first()?;
    if !has_name(b"cache-control", field) {
        return directive_in(rest, name);
    }
    match said_in(field, name) {
        Some(seconds) => Some(seconds),
        None => directive_in(rest, name),
    }
}

fn said_in(field: &Field, name: &[u8]) -> Option<u64>
    ensures value { result ≡ first_given (said_by name.now) (elements field.now.value) }
    ensures bound { IfSome result (λ n. n ≤ most_seconds) }
{
    first_said(field.value.bytes(), name)
}

/// Whether the field has the name, where the case of letters isn't regarded.
pub fn has_name(name: &[u8], field: &Field) -> bool
    ensures { result ≡ is_named name.now field.now }
{
    fold_eq(name, field.name.bytes())
}

// The seconds that the first directive of the name in a list says.
fn first_said(list: &[u8], name: &[u8]) -> Option<u64>
    ensures value { result ≡ first_given (said_by name.now) (elements list.now) }
    ensures bound { IfSome result (λ n. n ≤ most_seconds) }
{
    let mut rest = list;
    loop {
        let (element, behind) = first_element(rest);
        if let Some(seconds) = said(element, name) {
            return Some(seconds);
        }
        match behind {
            Some(behind) => rest = behind,
            None => return None,
        }
    }
}

// The first element of a list, and the list of those behind its comma.
fn first_element(list: &[u8]) -> (&[u8], Option<&[u8]>)
    ensures { MatchOption result.1
        (elements list.now ≡ result.0.now ∷ [])
        (λ behind. (elements list.now ≡ result.0.now ∷ elements behind.now) × (length behind.now < length list.now)) }
{
    let place = place_of(list, b',');
    let element = trim_blanks(&list[..place]);
    if place < list.len() {
        (element, Some(behind(list, place)))
    } else {
        (element, None)
    }
}

// The seconds behind the `=` of a directive, if it has the name.
fn said(directive: &[u8], name: &[u8]) -> Option<u64>
    ensures value { result ≡ said_by name.now directive.now }
    ensures bound { IfSome result (λ n. n ≤ most_seconds) }
{
    let place = place_of(directive, b'=');
    if is_word(name, &directive[..place]) {
        seconds(behind(directive, place))
    } else {
        None
    }
}

fn is_word(name: &[u8], word: &[u8]) -> bool
    ensures { result ≡ bytes_eq (folded name.now) (folded word.now) }
{
    fold_eq(name, word)
}

// What stands behind a place.
fn behind(list: &[u8], place: usize) -> &[u8]
    ensures { result.now ≡ drop (place + 1) list.now }
{
    if place < list.len() {
        &list[place + 1..]
    } else {
        &[]
    }
}

// The place of the first such byte, or the end.
fn place_of(list: &[u8], mark: u8) -> usize
    ensures place { result ≡ position_or_len (λ byte. byte == mark) list.now }
    ensures within { result ≤ length list.now }
{
    for (place, byte) in list.iter().enumerate() {
        if *byte == mark {
            return place;
        }
    }
    list.len()
}

/// The number that digits alone say, where one over `MAX_SECONDS` counts as that.
pub fn seconds(digits: &[u8]) -> Option<u64>
    ensures value { result ≡ seconds_of digits.now }
    ensures bound { IfSome result (λ n. n ≤ most_seconds) }
{
    if digits.is_empty() {
        return None;
    }
    let mut value = 0;
    for digit in digits {
        if !digit.is_ascii_digit() {
            return None;
        }
        value = with_digit(value, *digit);
    }
    Some(value)
}

// The number with one more digit behind it.
fn with_digit(value: u64, digit: u8) -> u64
    requires small { value ≤ most_seconds }
    requires digit { digit_value digit < 10 }
    ensures { result ≡ min (value * 10 + digit_value digit) most_seconds }
{
    (value * 10 + u64::from(digit - b'0')).min(MAX_SECONDS)
}
