// What is made of one value, and of two.
ghost use Rattle.std.specs.Prelude.{◌≡◌, IfOk, IsSome, Some, slice_get};
ghost use Rattle.vcl_operands.specs.Lists.{takes};
ghost use Rattle.vcl_operands.specs.Nodes.{changed, combined};
ghost use Rattle.vcl_operands.specs.Values.{as_text, truth_value, opposite, matched, sought, ordered, summed, lessened, substituted, replaced_in, asked_with, asked};

use crate::frame::{Binary, Unary};
use crate::leaves::director_value;
use acl_match::Acl;
use std::alloc::{AllocError, Global};
use units::Text;
use vcl_program::{Compiled, Director};
use vcl_values::{Comparison, MAX_TEXT, Pattern, Value, ValueError, compare, difference, sum};

/// A value as a text, or none where that has over 65,536 bytes.
pub fn short_text(alloc: Global, value: &Value) -> Result<Option<Text>, AllocError>
    ensures { IfOk result (λ text. text ≡ as_text value.now) }
{
    let text = value.text(alloc)?;
    if text.bytes().len() > MAX_TEXT {
        Ok(None)
    } else {
        Ok(Some(text))
    }
}

/// What is made of one value, or none where a limit is passed.
pub(crate) fn changed(
    alloc: Global,
    program: &Compiled,
    what: Unary,
    value: &Value,
) -> Result<Option<Value>, AllocError>
    requires { IsSome (changed program.now.code what value.now) }
    ensures { IfOk result (λ made. changed program.now.code what value.now ≡ Some made) }
{
    match what {
        Unary::Truth => Ok(Some(truth(value))),
        Unary::Not => Ok(Some(opposite(value))),
        Unary::Match(number, wanted) => matched(alloc, pattern_at(program, number), wanted, value),
        Unary::Seek(number, wanted) => Ok(Some(sought(acl_at(program, number), wanted, value))),
        Unary::Direct(number) => asked(alloc, program.code.directors.as_slice(), number, value),
    }
}

fn pattern_at(program: &Compiled, number: usize) -> &Pattern
    requires { IsSome (slice_get program.now.code.arena.patterns number) }
    ensures { slice_get program.now.code.arena.patterns number ≡ Some result.now }
{
    program.pattern(number)
}

fn acl_at(program: &Compiled, number: usize) -> &Acl
    requires { IsSome (slice_get program.now.code.acls number) }
    ensures { slice_get program.now.code.acls number ≡ Some result.now }
{
    program.acl(number)
}

fn truth(value: &Value) -> Value
    requires { IsSome (truth_value value.now) }
    ensures { truth_value value.now ≡ Some (Some result) }
{
    match value.truth() {
        Some(truth) => Value::Bool(truth),
        None => unreachable!(),
    }
}

fn opposite(value: &Value) -> Value
    requires { IsSome (opposite value.now) }
    ensures { opposite value.now ≡ Some (Some result) }
{
    match value.truth() {
        Some(truth) => Value::Bool(!truth),
        None => unreachable!(),
    }
}

fn matched(
    alloc: Global,
    pattern: &Pattern,
    wanted: bool,
    value: &Value,
) -> Result<Option<Value>, AllocError>
    ensures { IfOk result (λ made. made ≡ matched pattern.now wanted value.now) }
{
    match short_text(alloc, value)? {
        Some(text) => {
            let found = pattern.is_match(alloc, &text)?;
            Ok(Some(Value::Bool(found == wanted)))
        }
        None => Ok(None),
    }
}

fn sought(acl: &Acl, wanted: bool, value: &Value) -> Value
    requires { IsSome (sought acl.now wanted value.now) }
    ensures { sought acl.now wanted value.now ≡ Some (Some result) }
{
    match value {
        Value::Ip(address) => Value::Bool(is_taken(acl, *address) == wanted),
        _ => unreachable!(),
    }
}

fn is_taken(acl: &Acl, address: [u8; 4]) -> bool
    ensures { result ≡ takes acl.now address }
{
    acl.matches(address)
}

// A director that is asked with a text.
fn asked(
    alloc: Global,
    directors: &[Director],
    number: usize,
    value: &Value,
) -> Result<Option<Value>, AllocError>
    requires { IsSome (asked directors.now number value.now) }
    ensures { IfOk result (λ made. asked directors.now number value.now ≡ Some made) }
{
    let Some(director) = directors.get(number) else {
        unreachable!();
    };
    asked_with(alloc, director, value)
}

fn asked_with(
    alloc: Global,
    director: &Director,
    value: &Value,
) -> Result<Option<Value>, AllocError>
    ensures { IfOk result (λ made. made ≡ asked_with value.now director.now) }
{
    match short_text(alloc, value)? {
        Some(key) => Ok(Some(director_value(director, Some(key))?)),
        None => Ok(None),
    }
}

/// What is made of two values, or none where a range or a limit is passed.
pub(crate) fn combined(
    alloc: Global,
    program: &Compiled,
    what: Binary,
    left: &Value,
    right: &Value,
) -> Result<Option<Value>, AllocError>
    requires { IsSome (combined program.now.code what left.now right.now) }
    ensures { IfOk result (λ made. combined program.now.code what left.now right.now ≡ Some made) }
{
    match what {
        Binary::Compare(how) => Ok(Some(ordered(how, left, right))),
        Binary::Add => summed(alloc, left, right),
        Binary::Subtract => Ok(lessened(left, right)),
        Binary::Substitute(all, number) => {
            substituted(alloc, pattern_at(program, number), all, left, right)
        }
    }
}

fn ordered(how: Comparison, left: &Value, right: &Value) -> Value
    requires { IsSome (ordered how left.now right.now) }
    ensures { ordered how left.now right.now ≡ Some (Some result) }
{
    match compare(how, left, right) {
        Some(truth) => Value::Bool(truth),
        None => unreachable!(),
    }
}

fn summed(alloc: Global, left: &Value, right: &Value) -> Result<Option<Value>, AllocError>
    requires { IsSome (summed left.now right.now) }
    ensures { IfOk result (λ made. summed left.now right.now ≡ Some made) }
{
    match sum(alloc, left, right) {
        Ok(value) => Ok(Some(value)),
        Err(ValueError::NoMemory) => Err(AllocError),
        Err(ValueError::Range | ValueError::TooLong) => Ok(None),
        Err(ValueError::Kind) => unreachable!(),
    }
}

fn lessened(left: &Value, right: &Value) -> Option<Value>
    requires { IsSome (lessened left.now right.now) }
    ensures { lessened left.now right.now ≡ Some result }
{
    match difference(left, right) {
        Ok(value) => Some(value),
        Err(ValueError::NoMemory | ValueError::Range | ValueError::TooLong) => None,
        Err(ValueError::Kind) => unreachable!(),
    }
}

// A text with matches of a pattern replaced.
fn substituted(
    alloc: Global,
    pattern: &Pattern,
    all: bool,
    left: &Value,
    right: &Value,
) -> Result<Option<Value>, AllocError>
    ensures { IfOk result (λ made. made ≡ substituted pattern.now all left.now right.now) }
{
    let Some(text) = short_text(alloc, left)? else {
        return Ok(None);
    };
    match short_text(alloc, right)? {
        Some(by) => replaced_in(alloc, pattern, all, &text, &by),
        None => Ok(None),
    }
}

fn replaced_in(
    alloc: Global,
    pattern: &Pattern,
    all: bool,
    text: &Text,
    by: &Text,
) -> Result<Option<Value>, AllocError>
    ensures { IfOk result (λ made. made ≡ replaced_in pattern.now all text.now by.now) }
{
    match pattern.replace(alloc, text, by, all) {
        Ok(text) => Ok(Some(Value::String(Some(text)))),
        Err(ValueError::NoMemory) => Err(AllocError),
        Err(_) => Ok(None),
    }
}
