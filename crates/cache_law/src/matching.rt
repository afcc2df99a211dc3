// The tests by which a lookup finds an object.
ghost use Rattle.std.specs.Prelude.{◌≡◌, ◌^◌, ◌+◌, ◌+ℤ◌, ◌≤ℤ◌, neg_ℤ, pos, ◌&&◌, map};
ghost use Rattle.std.specs.List.{list_all};
ghost use Rattle.std.specs.Str.{bytes_eq};
ghost use Rattle.units.specs.Blanks.{trimmed};
ghost use Rattle.http_heads.specs.Fields.{is_named as named};
ghost use Rattle.cache_law.specs.Object.{can_confirm as confirms, same_texts, varies_always as always};
ghost use Rattle.cache_law.specs.Lookup.{fresh_until as until, grace_until as grace_end, has_values as has, is_chosen_by as chosen, is_fresh, is_in_grace, lessened as less, matches as matching, values_of};

use crate::object::sum_of;
use crate::{Object, Options, Query, VaryItem};
use freshness::revalidatable;
use http_heads::Field;
use units::{Text, fold_eq, trim_blanks};

fn is_named(name: &[u8], field: &Field) -> bool
    ensures { result ≡ named name.now field.now }
{
    fold_eq(name, field.name.bytes())
}

/// Whether the field has the value, where blanks at the ends count for nothing.
fn is_same_value(field: &Field, value: &Text) -> bool
    ensures { result ≡ bytes_eq (trimmed field.now.value) (trimmed value.now) }
{
    trim_blanks(field.value.bytes()) == trim_blanks(value.bytes())
}

/// Whether the fields of the name have these values, one after another.
fn has_same_values(name: &[u8], fields: &[Field], values: &[Text]) -> bool
    ensures { result ≡ same_texts (values_of name.now fields.now) (map trimmed values.now) }
{
    match fields {
        [] => values.is_empty(),
        [field, others @ ..] => {
            if !is_named(name, field) {
                return has_same_values(name, others, values);
            }
            match values {
                [] => false,
                [value, rest @ ..] => {
                    is_same_value(field, value) && has_same_values(name, others, rest)
                }
            }
        }
    }
}

fn has_values(fields: &[Field], item: &VaryItem) -> bool
    ensures { result ≡ has fields.now item.now }
{
    has_same_values(item.name.bytes(), fields, item.values.as_slice())
}

fn have_values(fields: &[Field], vary: &[VaryItem]) -> bool
    ensures { result ≡ list_all (has fields.now) vary.now }
{
    vary.iter().all(|item| has_values(fields, item))
}

fn varies_always(object: &Object) -> bool
    ensures { result ≡ always object.now }
{
    match object {
        Object::Ordinary(response) => response.content.varies_always,
        Object::HitForMiss(_) => false,
        Object::HitForPass(_) => false,
    }
}

/// Whether the object was chosen by what the request has, too, or the lookup ignores that (RFC 9111, section 4.1).
pub fn is_chosen_by(query: &Query, object: &Object) -> bool
    ensures { result ≡ chosen query.now object.now }
{
    query.options.ignore_vary
        || (!varies_always(object) && have_values(query.request.fields.as_slice(), object.vary()))
}

/// Whether the object has the lookup's key, and was chosen by what its request has, too (RFC 9111, section 4.1).
pub fn matches(query: &Query, object: &Object) -> bool
    ensures { result ≡ matching query.now object.now }
{
    object.key() == query.key.as_slice() && is_chosen_by(query, object)
}

/// Whether the object is a response that can be asked for again with a condition: its status is 200, and it has ETag or
/// Last-Modified.
pub fn can_confirm(object: &Object) -> bool
    ensures { result ≡ confirms object.now }
{
    match object {
        Object::Ordinary(response) => {
            revalidatable(response.content.status, &response.content.fields)
        }
        Object::HitForMiss(_) | Object::HitForPass(_) => false,
    }
}

/// The lesser of an object's number and of the one that the lookup gives.
fn lessened(own: i64, given: Option<i64>) -> i64
    ensures { result ≡ less own given }
{
    match given {
        Some(given) => own.min(given),
        None => own,
    }
}

/// The moment from which on the object isn't fresh for the lookup.
fn fresh_until(options: &Options, object: &Object) -> i128
    ensures value { result ≡ until options.now object.now }
    ensures low { neg_ℤ (pos (2 ^ 64)) ≤ℤ result }
    ensures high { result ≤ℤ pos (2 ^ 64) }
{
    let timing = object.timing();
    sum_of(timing.origin, lessened(timing.ttl, options.ttl))
}

/// Whether the object's lifetime, which the lookup may lessen, isn't over at the moment, in milliseconds since 1970.
pub fn is_fresh_for(moment: u64, options: &Options, object: &Object) -> bool
    ensures { result ≡ is_fresh moment options.now object.now }
{
    i128::from(moment) < fresh_until(options, object)
}

/// A moment and some milliseconds, which 128 bits can hold.
fn moved(moment: i128, millis: i64) -> i128
    requires low { neg_ℤ (pos (2 ^ 64)) ≤ℤ moment }
    requires high { moment ≤ℤ pos (2 ^ 64) }
    ensures { result ≡ moment +ℤ millis }
{
    moment + i128::from(millis)
}

/// The moment from which on the object isn't in grace for the lookup.
fn grace_until(options: &Options, object: &Object) -> i128
    ensures { result ≡ grace_end options.now object.now }
{
    let grace = lessened(object.timing().grace, options.grace);
    moved(fresh_until(options, object), grace)
}

/// Whether the grace of an object that isn't fresh, which the lookup may lessen, isn't over at the moment.
pub fn is_in_grace_for(moment: u64, options: &Options, object: &Object) -> bool
    ensures { result ≡ is_in_grace moment options.now object.now }
{
    i128::from(moment) < grace_until(options, object)
}
