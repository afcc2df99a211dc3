// Durations, in milliseconds.
ghost use Rattle.std.specs.Prelude.{◌≡◌, ◌≤◌, ◌<◌, ◌∷◌, ◌++◌, [], ◌^◌, ◌*◌, ◌/◌, ◌+◌, SomeIff, List, ℕ, pos, length, MatchOption, IfNone, IfSome};
ghost use Rattle.std.specs.Str.Parse.{digits_value, AllDigits};
ghost use Rattle.units.specs.Durations.{IsDuration, IsSplit, Stops, unit_millis, longest_unit, millis_limit};

use crate::numbers::value_of_digits;

/// The milliseconds of a duration: digits, a fraction of one to three digits behind a point, and right
/// behind them one of ms, s, m, h, d, w and y. A part of a millisecond is cut off. None where the bytes are
/// no duration, or one of more than 10,000,000,000,000 milliseconds.
pub fn read_millis(bytes: &[u8]) -> Option<i64>
    ensures { MatchOption result
        ((n : ℕ) → IsDuration bytes.now n → ⊥)
        (λ millis. (n : ℕ) × (millis ≡ pos n) × IsDuration bytes.now n) }
{
    let parts = split_duration(bytes)?;
    let unit = millis_of_unit(parts.unit)?;
    let millis = total(parts.whole, parts.fraction, unit)?;
    Some(millis as i64)
}

/// The bytes are a duration of one length at most.
pub fn one_duration(bytes: &[u8])
    ensures { (m n : ℕ) → IsDuration bytes.now m → IsDuration bytes.now n → m ≡ n }
{}

// So many units, where that is within the limit.
fn total(whole: &[u8], fraction: &[u8], unit: u64) -> Option<u64>
    requires whole { AllDigits 10 whole.now }
    requires fraction { AllDigits 10 fraction.now }
    requires short { length fraction.now ≤ 3 }
    requires some { 0 < unit }
    requires small { unit ≤ longest_unit }
    ensures { let millis = digits_value 10 whole.now * unit + (digits_value 10 fraction.now * unit) / 10 ^ length fraction.now in
        SomeIff result (millis ≤ millis_limit) millis }
{
    let whole = value_of_digits(whole)?;
    let whole = whole.checked_mul(unit)?;
    let millis = whole.checked_add(part_of_unit(fraction, unit))?;
    if millis > MILLIS_LIMIT {
        None
    } else {
        Some(millis)
    }
}

const MILLIS_LIMIT: u64 = 10_000_000_000_000;

// What a duration's text consists of.
#[derive(Clone, Copy)]
struct Parts<'a> {
    whole: &'a [u8],
    fraction: &'a [u8],
    unit: &'a [u8],
}

// The parts of a duration's text, whatever its unit is.
fn split_duration(bytes: &[u8]) -> Option<Parts<'_>>
    ensures { MatchOption result
        ((n : ℕ) → IsDuration bytes.now n → ⊥)
        (λ parts. IsSplit bytes.now parts.whole.now parts.fraction.now parts.unit.now) }
{
    let (whole, rest) = leading_digits(bytes);
    if whole.is_empty() {
        return None;
    }
    let Some(behind) = rest.strip_prefix(b".") else {
        return Some(Parts {
            whole,
            fraction: &[],
            unit: rest,
        });
    };
    let (fraction, unit) = leading_digits(behind);
    if fraction.is_empty() || fraction.len() > 3 {
        return None;
    }
    Some(Parts {
        whole,
        fraction,
        unit,
    })
}

// The digits that the bytes begin with, and what is behind them.
fn leading_digits(bytes: &[u8]) -> (&[u8], &[u8])
    ensures joined { bytes.now ≡ result.0.now ++ result.1.now }
    ensures digits { AllDigits 10 result.0.now }
    ensures stops { Stops result.1.now }
{
    for (place, byte) in bytes.iter().enumerate() {
        if !byte.is_ascii_digit() {
            return bytes.split_at(place);
        }
    }
    (bytes, &[])
}

// The part of a unit that a fraction is, cut to whole milliseconds.
fn part_of_unit(fraction: &[u8], unit: u64) -> u64
    requires digits { AllDigits 10 fraction.now }
    requires short { length fraction.now ≤ 3 }
    requires small { unit ≤ longest_unit }
    ensures { result ≡ (digits_value 10 fraction.now * unit) / 10 ^ length fraction.now }
{
    let Some(value) = value_of_digits(fraction) else {
        return 0;
    };
    let scale = match fraction.len() {
        0 => 1,
        1 => 10,
        2 => 100,
        _ => 1000,
    };
    value * unit / scale
}

fn millis_of_unit(name: &[u8]) -> Option<u64>
    ensures value { result ≡ unit_millis name.now }
    ensures some { IfSome result (λ millis. 0 < millis) }
    ensures small { IfSome result (λ millis. millis ≤ longest_unit) }
{
    match name {
        b"ms" => Some(1),
        b"s" => Some(1_000),
        b"m" => Some(60_000),
        b"h" => Some(3_600_000),
        b"d" => Some(86_400_000),
        b"w" => Some(604_800_000),
        b"y" => Some(31_536_000_000),
        _ => None,
    }
}
