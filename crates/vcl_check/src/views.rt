// What is seen of a part by what it belongs to.
ghost use Rattle.std.specs.Prelude.{◌≡◌};
ghost use Rattle.vcl_check.specs.Views.{at_place, of_sort, written, sort_of, name_seen, given_sort, call_sort, whole_part, weight_of_integer, weight_of_decimal, weight, integer_weight, decimal_weight, weight_seen, argument_of, seen_together};

use crate::form::Form;
use crate::rules::{difference_sort, grouped_sort, sum_sort, with_argument};
use crate::seen::{Argument, Literal, Meaning, NO_ARGUMENTS, Seen, Sort};
use vcl_values::Kind;

/// A part of which its place alone is seen.
pub fn at_place(place: u32) -> Seen
    ensures { result ≡ at_place place }
{
    Seen {
        sort: Sort::Value(None),
        first: place,
        second: 0,
        meaning: Meaning::Unknown,
        literal: Literal::Other,
        arguments: NO_ARGUMENTS,
    }
}

fn of_sort(sort: Sort, place: u32) -> Seen
    ensures { result ≡ of_sort sort place }
{
    Seen {
        sort,
        ..at_place(place)
    }
}

/// A literal of a type.
pub fn written(kind: Kind, literal: Literal, place: u32) -> Seen
    ensures { result ≡ written kind literal place }
{
    Seen {
        sort: Sort::Value(Some(kind)),
        literal,
        ..at_place(place)
    }
}

fn sort_of(meaning: Meaning) -> Sort
    ensures { result ≡ sort_of meaning }
{
    match meaning {
        Meaning::Variable(variable) => Sort::Value(Some(variable.kind)),
        Meaning::Truth => Sort::Value(Some(Kind::Bool)),
        Meaning::Backend => Sort::Value(Some(Kind::Backend)),
        Meaning::Acl => Sort::Acl,
        Meaning::NoValue => Sort::Nothing,
        _ => Sort::Value(None),
    }
}

/// A name that stands for something.
pub fn name_seen(place: u32, meaning: Meaning) -> Seen
    ensures { result ≡ name_seen place meaning }
{
    Seen {
        sort: sort_of(meaning),
        meaning,
        ..at_place(place)
    }
}

fn call_sort(meaning: Meaning) -> Sort
    ensures { result ≡ call_sort meaning }
{
    match meaning {
        Meaning::Function(function) => match function.gives {
            None => Sort::Nothing,
            Some(kind) => Sort::Value(Some(kind)),
        },
        _ => Sort::Value(None),
    }
}

/// The weight that an integer gives, from 1 to 1,000.
pub fn weight_of_integer(number: i64) -> Option<u32>
    ensures { result ≡ weight_of_integer number }
{
    if 0 < number && number < 1001 {
        Some(number as u32)
    } else {
        None
    }
}

/// The weight that a decimal gives, from 1 to 1,000.
pub fn weight_of_decimal(digits: &[u8]) -> Option<u32>
    ensures { result ≡ weight_of_decimal digits.now }
{
    let number = whole_part(digits);
    if 1 <= number && number <= 1000 {
        Some(number)
    } else {
        None
    }
}

fn weight(found: Option<u32>) -> Literal
    ensures { result ≡ weight found }
{
    match found {
        Some(_) => Literal::Weight,
        None => Literal::Other,
    }
}

/// Whether an integer may be a weight.
pub fn integer_weight(number: i64) -> Literal
    ensures { result ≡ integer_weight number }
{
    weight(weight_of_integer(number))
}

// Whether a decimal may be a weight.
fn decimal_weight(digits: &[u8]) -> Literal
    ensures { result ≡ decimal_weight digits.now }
{
    weight(weight_of_decimal(digits))
}

/// A decimal, which may be a weight.
pub fn weight_seen(place: u32, digits: &[u8]) -> Seen
    ensures { result ≡ weight_seen place digits.now }
{
    Seen {
        sort: Sort::Weight,
        literal: decimal_weight(digits),
        ..at_place(place)
    }
}

// The number that the digits before a point spell, where one over 1,000 counts as 1,001.
fn whole_part(digits: &[u8]) -> u32
    ensures { result ≡ whole_part 0 digits.now }
{
    let mut number = 0;
    for byte in digits {
        if *byte == b'.' {
            break;
        }
        number = (10 * number + u32::from(byte.saturating_sub(b'0'))).min(1001);
    }
    number
}

fn argument_of(seen: Seen) -> Argument
    ensures { result ≡ argument_of seen }
{
    Argument {
        sort: seen.sort,
        place: seen.first,
        literal: seen.literal,
    }
}

fn with_one_more(a: Seen, b: Seen) -> Seen
    ensures { result ≡ seen_together Form.Argument a b }
{
    let arguments = with_argument(a.arguments, argument_of(b));
    Seen {
        arguments,
        ..at_place(a.first)
    }
}

fn assigned(a: Seen, b: Seen) -> Seen
    ensures { result ≡ seen_together Form.Assignment a b }
{
    Seen {
        sort: b.sort,
        second: b.first,
        meaning: a.meaning,
        ..at_place(a.first)
    }
}

fn applied(a: Seen, b: Seen) -> Seen
    ensures { result ≡ seen_together Form.Applied a b }
{
    let arguments = b.arguments;
    Seen {
        meaning: a.meaning,
        arguments,
        ..at_place(a.first)
    }
}

/// What is seen of two parts together.
pub fn seen_together(form: Form, a: Seen, b: Seen) -> Seen
    ensures { result ≡ seen_together form a b }
{
    match form {
        Form::Junction => of_sort(Sort::Value(Some(Kind::Bool)), a.first),
        Form::Compared(_) => of_sort(Sort::Value(Some(Kind::Bool)), a.first),
        Form::Added => of_sort(sum_sort(a.sort, b.sort), a.first),
        Form::Subtracted => of_sort(difference_sort(a.sort, b.sort), a.first),
        Form::Inverted => of_sort(Sort::Value(Some(Kind::Bool)), a.first),
        Form::Grouped => of_sort(grouped_sort(b.sort), a.first),
        Form::Call => of_sort(call_sort(a.meaning), a.first),
        Form::Argument => with_one_more(a, b),
        Form::Assignment => assigned(a, b),
        Form::Applied => applied(a, b),
        Form::Object => b,
        _ => at_place(a.first),
    }
}
