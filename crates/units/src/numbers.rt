// Whole numbers as decimal texts.
ghost use Rattle.std.specs.Prelude.{◌≡◌, ◌<◌, ◌^◌, ◌*◌, ◌+◌, ◌++◌, ℕ, MatchOption, SomeIff, IfOk, is_ok, if◌then◌else◌};
ghost use Rattle.std.specs.Char.{digit_value};
ghost use Rattle.std.specs.Str.Parse.{digits_value, AllDigits};
ghost use Rattle.std.specs.Fmt.{decimal};
ghost use Rattle.units.specs.Numbers.{IsNumber};

use crate::text::Text;
use std::alloc::{AllocError, Global};

/// The number that the bytes are: decimal digits without a leading zero (but `0` itself), at most
/// 18,446,744,073,709,551,615. None where they are no such number.
pub fn read_number(bytes: &[u8]) -> Option<u64>
    ensures { MatchOption result ((n : ℕ) → IsNumber bytes.now n → ⊥) (λ n. IsNumber bytes.now n) }
{
    if bytes.is_empty() {
        return None;
    }
    if bytes.len() > 1 && bytes[0] == b'0' {
        return None;
    }
    value_of_digits(bytes)
}

/// The value of digits, of which there may be any number; zeros may lead. None where a byte is no digit,
/// or the value is over 64 bits. No digits have the value 0.
pub fn value_of_digits(digits: &[u8]) -> Option<u64>
    ensures { SomeIff result (AllDigits 10 digits.now × (digits_value 10 digits.now < 2 ^ 64)) (digits_value 10 digits.now) }
{
    let mut value: u64 = 0;
    for digit in digits {
        value = with_digit(value, *digit)?;
    }
    Some(value)
}

// The number with one more digit behind it.
fn with_digit(value: u64, digit: u8) -> Option<u64>
    ensures { SomeIff result ((digit_value digit < 10) × (value * 10 + digit_value digit < 2 ^ 64)) (value * 10 + digit_value digit) }
{
    if !digit.is_ascii_digit() {
        return None;
    }
    let tens = value.checked_mul(10)?;
    tens.checked_add(u64::from(digit - b'0'))
}

/// The decimal digits of a number, which `read_number` reads again.
pub fn write_number(alloc: Global, n: u64) -> Result<Text, AllocError>
    ensures { IfOk result (λ t. IsNumber t n) }
{
    Text::from_vec(n.to_string(alloc)?.into_bytes())
}

/// Puts the decimal digits of a number at the end. Where memory is wanting, the bytes are as before.
pub fn push_number(out: &mut Vec<u8>, alloc: Global, n: u64) -> Result<(), AllocError>
    ensures { out.new.items ≡ (if is_ok result then out.old.items ++ decimal n else out.old.items) }
{
    let digits = n.to_string(alloc)?;
    out.extend_from_slice(digits.as_bytes())
}

/// The bytes are at most one number.
pub fn one_number(bytes: &[u8])
    ensures { (m n : ℕ) → IsNumber bytes.now m → IsNumber bytes.now n → m ≡ n }
{}
