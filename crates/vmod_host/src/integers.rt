// Texts as whole numbers.
ghost use Rattle.std.specs.Prelude.{◌≡◌, ◌∷◌, [], ◌^◌, ℕ, map, reverse, nat_lt, IfOk, if◌then◌else◌};
ghost use Rattle.std.specs.Option.{option_and_then};
ghost use Rattle.vcl_values.specs.Values.{kind_of};
ghost use Rattle.vmod_host.specs.Integers.{is_blank, without_leading, trimmed, natural_of, positive, negative, signed_of, integer_of};
ghost use Rattle.vmod_host.specs.Meanings.{IsMeaning};

use crate::INTEGER;
use crate::strings::bytes_of;
use std::alloc::{AllocError, Global};
use units::value_of_digits;
use vcl_values::{Kind, Value};

/// `std.integer(STRING, INT)`: the text as a whole number, blanks around it being passed over, or the second
/// where it is none of 64 bits.
pub fn integer(alloc: Global, arguments: &[Value]) -> Result<Value, AllocError>
    requires { map kind_of arguments.now ≡ Kind.String ∷ Kind.Int ∷ [] }
    ensures { IfOk result (IsMeaning INTEGER Kind.Int arguments.now) }
{
    let [text, Value::Int(fallback)] = arguments else {
        unreachable!()
    };
    let number = read_integer(bytes_of(text)).unwrap_or(*fallback);
    Ok(Value::Int(number))
}

fn read_integer(text: &[u8]) -> Option<i64>
    ensures { result ≡ integer_of text.now }
{
    read_signed(trim(text))
}

fn read_signed(text: &[u8]) -> Option<i64>
    ensures { result ≡ signed_of text.now }
{
    match text {
        [] => None,
        [b'+', digits @ ..] => read_positive(digits),
        [b'-', digits @ ..] => read_negative(digits),
        digits => read_positive(digits),
    }
}

fn read_positive(digits: &[u8]) -> Option<i64>
    ensures { result ≡ option_and_then positive (natural_of digits.now) }
{
    0i64.checked_add_unsigned(read_natural(digits)?)
}

fn read_negative(digits: &[u8]) -> Option<i64>
    ensures { result ≡ option_and_then negative (natural_of digits.now) }
{
    0i64.checked_sub_unsigned(read_natural(digits)?)
}

// The value of digits, where it has at most 64 bits.
fn read_natural(digits: &[u8]) -> Option<u64>
    ensures { result ≡ option_and_then (λ n. if nat_lt n (2 ^ 64) then Some n else None) (natural_of digits.now) }
{
    if digits.is_empty() {
        return None;
    }
    value_of_digits(digits)
}

// A text without the blanks around it.
fn trim(text: &[u8]) -> &[u8]
    ensures { result.now ≡ trimmed text.now }
{
    trim_end(trim_start(text))
}

fn trim_start(text: &[u8]) -> &[u8]
    ensures { result.now ≡ without_leading text.now }
{
    let mut rest = text;
    while let Some((first, behind)) = rest.split_first() {
        if !is_blank(*first) {
            break;
        }
        rest = behind;
    }
    rest
}

fn trim_end(text: &[u8]) -> &[u8]
    ensures { result.now ≡ reverse (without_leading (reverse text.now)) }
{
    let mut rest = text;
    while let Some((last, before)) = rest.split_last() {
        if !is_blank(*last) {
            break;
        }
        rest = before;
    }
    rest
}

fn is_blank(byte: u8) -> bool
    ensures { result ≡ is_blank byte }
{
    matches!(byte, b' ' | b'\t' | b'\n' | b'\r')
}
