// When a ban matches.
ghost use Rattle.std.specs.Prelude.{◌≡◌, ◌^◌, ◌+ℤ◌, ◌≤ℤ◌, neg_ℤ, pos, map, IfOk};
ghost use Rattle.std.specs.List.{list_all};
ghost use Rattle.std.specs.Option.{option_copied};
ghost use Rattle.http_heads.specs.Fields.{first_value};
ghost use Rattle.cache_law.specs.Bans.{ban_matches, object_only as looks_at_objects, is_on_object as looks_at_object, holds as condition_holds, passes as operator_passes, text_of, url_in, header_in, status_of as status_in, fields_of, is_argument, has_match, time_of as time_said, compares as comparison_says};
ghost use Rattle.ban_expr.specs.Searches.{finds, sought, sought_by};

use crate::patterns::patterns_of;
use cache_law::{Ban, Condition, Object, RequestView, TextField, TextOperator, TimeField};
use std::alloc::{AllocError, Global};
use units::{Text, write_number};
use vcl_values::{Comparison, Pattern};

/// Whether all conditions of the ban look at the object alone, so that no request is needed to test it.
#[tactic(auto, unfolding(cache_law::specs::Bans::object_only))]
pub fn object_only(ban: &Ban) -> bool
    ensures { result ≡ looks_at_objects ban.now }
{
    ban.conditions.as_slice().iter().all(is_on_object)
}

fn is_on_object(condition: &Condition) -> bool
    ensures { result ≡ looks_at_object condition.now }
{
    match condition {
        Condition::OnText {
            field: TextField::RequestUrl | TextField::RequestHeader(_),
            ..
        } => false,
        Condition::OnText { .. } => true,
        Condition::OnTime { .. } => true,
    }
}

/// Whether the ban, issued at the moment, matches the object with the request. Hand the request unless the ban looks at
/// objects alone: without one its fields count as absent. The patterns are built for this one test; where that fails the
/// answer is want of memory. Of a ban that is tested more than once, make a `Prepared`.
#[tactic(auto, unfolding(cache_law::specs::Bans::ban_matches))]
pub fn test(
    alloc: Global,
    ban: &Ban,
    issued: u64,
    object: &Object,
    request: Option<&RequestView>,
) -> Result<bool, AllocError>
    ensures { IfOk result (λ matched. matched ≡ ban_matches ban.now issued object.now (option_copied request.entry)) }
{
    let conditions = ban.conditions.as_slice();
    let patterns = patterns_of(alloc, conditions)?;
    all_hold(
        alloc,
        conditions,
        patterns.as_slice(),
        issued,
        object,
        request,
    )
}

/// Whether the conditions of a ban, issued at the moment, hold of the object and the request. The patterns are those that
/// they search for.
pub(crate) fn all_hold(
    alloc: Global,
    conditions: &[Condition],
    patterns: &[Option<Pattern>],
    issued: u64,
    object: &Object,
    request: Option<&RequestView>,
) -> Result<bool, AllocError>
    requires { patterns.now ≡ map sought conditions.now }
    ensures { IfOk result (λ held. held ≡ list_all (condition_holds issued object.now (option_copied request.entry)) conditions.now) }
{
    for (place, condition) in conditions.iter().enumerate() {
        let pattern = patterns[place].as_ref();
        if !holds(alloc, condition, pattern, issued, object, request)? {
            return Ok(false);
        }
    }
    Ok(true)
}

fn holds(
    alloc: Global,
    condition: &Condition,
    pattern: Option<&Pattern>,
    issued: u64,
    object: &Object,
    request: Option<&RequestView>,
) -> Result<bool, AllocError>
    requires { option_copied pattern ≡ sought condition.now }
    ensures { IfOk result (λ held. held ≡ condition_holds issued object.now (option_copied request.entry) condition.now) }
{
    match condition {
        Condition::OnText {
            field,
            operator,
            argument,
        } => {
            let wanted = Wanted {
                operator: *operator,
                argument,
                pattern,
            };
            text_holds(alloc, field, &wanted, object, request)
        }
        Condition::OnTime {
            field,
            comparison,
            milliseconds,
        } => Ok(compares(
            *comparison,
            time_of(issued, object, *field),
            i128::from(*milliseconds),
        )),
    }
}

// What a condition wants of a text. The pattern is that of the argument where the operator searches.
#[derive(Clone, Copy)]
struct Wanted<'a> {
    operator: TextOperator,
    argument: &'a Text,
    pattern: Option<&'a Pattern>,
}

fn text_holds(
    alloc: Global,
    field: &TextField,
    wanted: &Wanted<'_>,
    object: &Object,
    request: Option<&RequestView>,
) -> Result<bool, AllocError>
    requires { option_copied wanted.now.pattern ≡ sought_by wanted.now.operator wanted.now.argument.now }
    ensures { IfOk result (λ held. held ≡ operator_passes wanted.now.operator wanted.now.argument.now (text_of object.now (option_copied request.entry) field.now)) }
{
    match field {
        TextField::RequestUrl => passes(alloc, wanted, url_of(request)),
        TextField::RequestHeader(name) => passes(alloc, wanted, header_of(request, name)),
        TextField::ObjectStatus => {
            let digits = write_number(alloc, u64::from(status_of(object)))?;
            passes(alloc, wanted, Some(&digits))
        }
        TextField::ObjectHeader(name) => passes(alloc, wanted, header_of_object(object, name)),
    }
}

fn url_of<'a>(request: Option<&'a RequestView>) -> Option<&'a Text>
    ensures { option_copied result ≡ url_in (option_copied request.entry) }
{
    match request {
        Some(view) => Some(&view.url),
        None => None,
    }
}

fn header_of<'a>(request: Option<&'a RequestView>, name: &Text) -> Option<&'a Text>
    ensures { option_copied result ≡ header_in (option_copied request.entry) name.now }
{
    request?.fields.first(name.bytes())
}

fn status_of(object: &Object) -> u16
    ensures { result ≡ status_in object.now }
{
    match object {
        Object::Ordinary(response) => response.content.status,
        Object::HitForMiss(marker) => marker.status,
        Object::HitForPass(marker) => marker.status,
    }
}

// A marker has no fields.
fn header_of_object<'a>(object: &'a Object, name: &Text) -> Option<&'a Text>
    ensures { option_copied result ≡ first_value name.now (fields_of object.now) }
{
    match object {
        Object::Ordinary(response) => response.content.fields.first(name.bytes()),
        Object::HitForMiss(_) => None,
        Object::HitForPass(_) => None,
    }
}

// What the operator says of a text, which may be absent.
fn passes(alloc: Global, wanted: &Wanted<'_>, found: Option<&Text>) -> Result<bool, AllocError>
    requires { option_copied wanted.now.pattern ≡ sought_by wanted.now.operator wanted.now.argument.now }
    ensures { IfOk result (λ passed. passed ≡ operator_passes wanted.now.operator wanted.now.argument.now (option_copied found.entry)) }
{
    match wanted.operator {
        TextOperator::Equal => Ok(is_equal(wanted.argument, found)),
        TextOperator::NotEqual => Ok(!is_equal(wanted.argument, found)),
        TextOperator::Matches => is_match(alloc, wanted.pattern, found),
        TextOperator::MatchesNot => Ok(!is_match(alloc, wanted.pattern, found)?),
    }
}

fn is_equal(argument: &Text, found: Option<&Text>) -> bool
    ensures { result ≡ is_argument argument.now (option_copied found.entry) }
{
    match found {
        Some(text) => text.bytes() == argument.bytes(),
        None => false,
    }
}

fn is_match(
    alloc: Global,
    pattern: Option<&Pattern>,
    found: Option<&Text>,
) -> Result<bool, AllocError>
    ensures { IfOk result (λ matched. matched ≡ finds (option_copied pattern.entry) (option_copied found.entry)) }
{
    match pattern {
        Some(pattern) => has_pattern(alloc, pattern, found),
        None => Ok(false),
    }
}

fn has_pattern(alloc: Global, pattern: &Pattern, found: Option<&Text>) -> Result<bool, AllocError>
    ensures { IfOk result (λ matched. matched ≡ has_match pattern.now (option_copied found.entry)) }
{
    match found {
        Some(text) => pattern.is_match(alloc, text),
        None => Ok(false),
    }
}

// A time of the object in milliseconds, which 128 bits hold.
fn time_of(issued: u64, object: &Object, field: TimeField) -> i128
    ensures { result ≡ time_said issued object.now field }
{
    let timing = object.timing();
    match field {
        TimeField::Ttl => end_of(timing.origin, timing.ttl) - i128::from(issued),
        TimeField::Age => i128::from(issued) - i128::from(timing.origin),
        TimeField::Grace => i128::from(timing.grace),
        TimeField::Keep => i128::from(timing.keep),
    }
}

// The moment at which a lifetime ends.
fn end_of(origin: i64, ttl: i64) -> i128
    ensures value { result ≡ origin +ℤ ttl }
    ensures low { neg_ℤ (pos (2 ^ 64)) ≤ℤ result }
    ensures high { result ≤ℤ pos (2 ^ 64) }
{
    i128::from(origin) + i128::from(ttl)
}

fn compares(comparison: Comparison, left: i128, right: i128) -> bool
    ensures { result ≡ comparison_says comparison left right }
{
    match comparison {
        Comparison::Equal => left == right,
        Comparison::NotEqual => left != right,
        Comparison::Less => left < right,
        Comparison::LessOrEqual => left <= right,
        Comparison::Greater => left > right,
        Comparison::GreaterOrEqual => left >= right,
    }
}
