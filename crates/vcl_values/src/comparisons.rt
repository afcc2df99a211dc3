// Comparisons of values.
ghost use Rattle.std.specs.Prelude.{◌≡◌, not, option_map};
ghost use Rattle.vcl_values.specs.Operators.{compared, equal, less, same_text, same_backend};

use crate::value::{Backend, Value};
use units::Text;

/// `==`, `!=`, `<`, `<=`, `>` and `>=`.
#[derive(Clone, Copy, Debug, PartialEq, Eq)]
pub enum Comparison {
    Equal,
    NotEqual,
    Less,
    LessOrEqual,
    Greater,
    GreaterOrEqual,
}

/// What the operator answers, None where it isn't one of the two types: `==` and `!=` are for two values of
/// one type, the others for two whole numbers or two durations.
pub fn compare(operator: Comparison, left: &Value, right: &Value) -> Option<bool>
    ensures { result ≡ compared operator left.now right.now }
{
    match operator {
        Comparison::Equal => are_equal(left, right),
        Comparison::NotEqual => negated(are_equal(left, right)),
        Comparison::Less => is_less(left, right),
        Comparison::LessOrEqual => negated(is_less(right, left)),
        Comparison::Greater => is_less(right, left),
        Comparison::GreaterOrEqual => negated(is_less(left, right)),
    }
}

fn negated(answer: Option<bool>) -> Option<bool>
    ensures { result ≡ option_map not answer }
{
    answer.map(|truth| !truth)
}

fn are_equal(left: &Value, right: &Value) -> Option<bool>
    ensures { result ≡ equal left.now right.now }
{
    match (left, right) {
        (Value::String(text), Value::String(other)) => Some(is_same_text(text, other)),
        (Value::Int(number), Value::Int(other)) => Some(number == other),
        (Value::Duration(time), Value::Duration(other)) => Some(time == other),
        (Value::Bool(truth), Value::Bool(other)) => Some(truth == other),
        (Value::Ip(address), Value::Ip(other)) => Some(address == other),
        (Value::Backend(backend), Value::Backend(other)) => Some(is_same_backend(backend, other)),
        _ => None,
    }
}

fn is_less(left: &Value, right: &Value) -> Option<bool>
    ensures { result ≡ less left.now right.now }
{
    match (left, right) {
        (Value::Int(number), Value::Int(other)) => Some(number < other),
        (Value::Duration(time), Value::Duration(other)) => Some(time < other),
        _ => None,
    }
}

// Absent texts are equal to nothing.
fn is_same_text(text: &Option<Text>, other: &Option<Text>) -> bool
    ensures { result ≡ same_text text.now other.now }
{
    match (text, other) {
        (Some(text), Some(other)) => text.bytes() == other.bytes(),
        _ => false,
    }
}

fn is_same_backend(backend: &Option<Backend>, other: &Option<Backend>) -> bool
    ensures { result ≡ same_backend backend.now other.now }
{
    match (backend, other) {
        (Some(backend), Some(other)) => backend.name.bytes() == other.name.bytes(),
        (None, None) => true,
        _ => false,
    }
}
