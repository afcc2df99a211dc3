// Arguments against what is taken.
ghost use Rattle.std.specs.Prelude.{◌≡◌};
ghost use Rattle.vcl_check.specs.Calls.{unless, with_argument, is_string, is_weight, may_be, takes_so_many, wanted, mistyped, unwritten, or_else, mistyped_at, leftmost_mistyped, unwritten_at, leftmost_unwritten, ill_called};

use crate::rules::kinds::accepts;
use crate::seen::{Argument, Arguments, Literal};
use vcl_language::{Parameter, Slot, Takes};

pub fn unless(holds: bool, place: u32) -> Option<u32>
    ensures { result ≡ unless holds place }
{
    if holds { None } else { Some(place) }
}

pub fn with_argument(arguments: Arguments, last: Argument) -> Arguments
    ensures { result ≡ with_argument arguments last }
{
    match arguments {
        [None, b, c, d] => [Some(last), b, c, d],
        [a, None, c, d] => [a, Some(last), c, d],
        [a, b, None, d] => [a, b, Some(last), d],
        [a, b, c, None] => [a, b, c, Some(last)],
        full => full,
    }
}

pub fn is_string(literal: Literal) -> bool
    ensures { result ≡ is_string literal }
{
    matches!(literal, Literal::String)
}

fn is_weight(literal: Literal) -> bool
    ensures { result ≡ is_weight literal }
{
    matches!(literal, Literal::Weight)
}

// Whether an argument may stand in a place, or be lacking there.
fn may_be(slot: Slot, argument: Option<Argument>) -> bool
    ensures { result ≡ may_be slot argument }
{
    match slot {
        Slot::Closed => argument.is_none(),
        Slot::Needed(_) => argument.is_some(),
        Slot::Optional(_) => true,
    }
}

fn takes_so_many(takes: Takes, arguments: Arguments) -> bool
    ensures { result ≡ takes_so_many takes arguments }
{
    let [first, second, third] = takes;
    let [a, b, c, more] = arguments;
    may_be(first, a) && may_be(second, b) && may_be(third, c) && more.is_none()
}

fn wanted(slot: Slot) -> Option<Parameter>
    ensures { result ≡ wanted slot }
{
    match slot {
        Slot::Closed => None,
        Slot::Needed(parameter) => Some(parameter),
        Slot::Optional(parameter) => Some(parameter),
    }
}

fn mistyped(wanted: Option<Parameter>, argument: Argument) -> Option<u32>
    ensures { result ≡ mistyped wanted argument }
{
    match wanted {
        None => None,
        Some(Parameter::Value(kind)) => unless(accepts(kind, argument.sort), argument.place),
        Some(Parameter::Pattern) => None,
        Some(Parameter::Weight) => unless(is_weight(argument.literal), argument.place),
    }
}

fn unwritten(wanted: Option<Parameter>, argument: Argument) -> Option<u32>
    ensures { result ≡ unwritten wanted argument }
{
    match wanted {
        Some(Parameter::Pattern) => unless(is_string(argument.literal), argument.place),
        _ => None,
    }
}

pub fn or_else(first: Option<u32>, other: Option<u32>) -> Option<u32>
    ensures { result ≡ or_else first other }
{
    match first {
        Some(place) => Some(place),
        None => other,
    }
}

fn mistyped_at(slot: Slot, argument: Option<Argument>) -> Option<u32>
    ensures { result ≡ mistyped_at slot argument }
{
    match argument {
        None => None,
        Some(argument) => mistyped(wanted(slot), argument),
    }
}

fn leftmost_mistyped(takes: &[Slot], arguments: &[Option<Argument>]) -> Option<u32>
    ensures { result ≡ leftmost_mistyped takes.now arguments.now }
{
    match takes {
        [] => None,
        [slot, slots @ ..] => match arguments {
            [] => None,
            [argument, behind @ ..] => or_else(
                mistyped_at(*slot, *argument),
                leftmost_mistyped(slots, behind),
            ),
        },
    }
}

fn unwritten_at(slot: Slot, argument: Option<Argument>) -> Option<u32>
    ensures { result ≡ unwritten_at slot argument }
{
    match argument {
        None => None,
        Some(argument) => unwritten(wanted(slot), argument),
    }
}

pub fn leftmost_unwritten(takes: &[Slot], arguments: &[Option<Argument>]) -> Option<u32>
    ensures { result ≡ leftmost_unwritten takes.now arguments.now }
{
    match takes {
        [] => None,
        [slot, slots @ ..] => match arguments {
            [] => None,
            [argument, behind @ ..] => or_else(
                unwritten_at(*slot, *argument),
                leftmost_unwritten(slots, behind),
            ),
        },
    }
}

pub fn ill_called(takes: Takes, arguments: Arguments, place: u32) -> Option<u32>
    ensures { result ≡ ill_called takes arguments place }
{
    if takes_so_many(takes, arguments) {
        leftmost_mistyped(&takes, &arguments)
    } else {
        Some(place)
    }
}
