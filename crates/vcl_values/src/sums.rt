// Sums and differences of values.
ghost use Rattle.std.specs.Prelude.{◌≡◌, ◌++◌, IfOk};
ghost use Rattle.vcl_values.specs.Operators.{Gives, sum_of, difference_of, int_value, duration_value, text_value};
ghost use Rattle.vcl_values.specs.Values.{text_of};
ghost use Rattle.vcl_values.specs.declared.sums.ValueError.TheVariants.{NoMemory};

use crate::value::Value;
use std::alloc::{AllocError, Global};
use std::error::Error;
use std::fmt;
use units::Text;

/// The most milliseconds of a duration, either way.
pub const MAX_MILLISECONDS: i128 = 10_000_000_000_000;

/// The most bytes of a text value.
pub const MAX_TEXT: usize = 65_536;

/// Why there is no sum or difference.
#[derive(Clone, Copy, Debug, PartialEq, Eq)]
pub enum ValueError {
    /// The operator isn't one of these types.
    Kind,
    /// A whole number out of 64 bits, or a duration beyond its most.
    Range,
    /// A text over its most bytes.
    TooLong,
    NoMemory,
}

impl fmt::Display for ValueError {
    fn fmt<W: fmt::Write>(&self, f: &mut fmt::Formatter<W>) -> fmt::Result {
        match self {
            ValueError::Kind => write!(f, "no operator of these types"),
            ValueError::Range => write!(f, "out of range"),
            ValueError::TooLong => write!(f, "a text over 65,536 bytes"),
            ValueError::NoMemory => write!(f, "out of memory"),
        }
    }
}

impl Error for ValueError {}

impl From<AllocError> for ValueError {
    ghost from_gives = { λ _ e. e ≡ NoMemory };

    fn from(_e: AllocError) -> ValueError {
        ValueError::NoMemory
    }
}

/// `+`: whole numbers and durations add; with a text on a side both are joined as texts.
pub fn sum(alloc: Global, left: &Value, right: &Value) -> Result<Value, ValueError>
    ensures { Gives result (sum_of left.now right.now) }
{
    match (left, right) {
        (Value::Int(number), Value::Int(other)) => {
            as_int(i128::from(*number) + i128::from(*other))
        }
        (Value::Duration(time), Value::Duration(other)) => {
            as_duration(i128::from(*time) + i128::from(*other))
        }
        (Value::String(_), _) | (_, Value::String(_)) => joined(alloc, left, right),
        _ => Err(ValueError::Kind),
    }
}

/// `-`: whole numbers or durations alone.
pub fn difference(left: &Value, right: &Value) -> Result<Value, ValueError>
    ensures { result ≡ difference_of left.now right.now }
{
    match (left, right) {
        (Value::Int(number), Value::Int(other)) => {
            as_int(i128::from(*number) - i128::from(*other))
        }
        (Value::Duration(time), Value::Duration(other)) => {
            as_duration(i128::from(*time) - i128::from(*other))
        }
        _ => Err(ValueError::Kind),
    }
}

fn as_int(number: i128) -> Result<Value, ValueError>
    ensures { result ≡ int_value number }
{
    if number < i128::from(i64::MIN) || i128::from(i64::MAX) < number {
        return Err(ValueError::Range);
    }
    Ok(Value::Int(number as i64))
}

fn as_duration(milliseconds: i128) -> Result<Value, ValueError>
    ensures { result ≡ duration_value milliseconds }
{
    if milliseconds < -MAX_MILLISECONDS || MAX_MILLISECONDS < milliseconds {
        return Err(ValueError::Range);
    }
    Ok(Value::Duration(milliseconds as i64))
}

// Two values as one text.
fn joined(alloc: Global, left: &Value, right: &Value) -> Result<Value, ValueError>
    ensures { Gives result (text_value (text_of left.now ++ text_of right.now)) }
{
    let front = left.text(alloc)?;
    let back = right.text(alloc)?;
    joined_text(alloc, front.bytes(), back.bytes())
}

fn joined_text(alloc: Global, front: &[u8], back: &[u8]) -> Result<Value, ValueError>
    ensures { Gives result (text_value (front.now ++ back.now)) }
{
    if front.len() > MAX_TEXT || back.len() > MAX_TEXT - front.len() {
        return Err(ValueError::TooLong);
    }
    Ok(Value::String(Some(text_of_two(alloc, front, back)?)))
}

fn text_of_two(alloc: Global, front: &[u8], back: &[u8]) -> Result<Text, AllocError>
    ensures { IfOk result (λ t. t ≡ front.now ++ back.now) }
{
    let mut bytes = Vec::new(alloc);
    bytes.extend_from_slice(front)?;
    bytes.extend_from_slice(back)?;
    Text::from_vec(bytes)
}
