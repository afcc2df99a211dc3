// What a subroutine reads of an object, and the response that is made of it.
ghost use Rattle.std.specs.Prelude.{◌≡◌, ◌+ℤ◌, ◌-ℤ◌, ◌≤ℤ◌, ◌^◌, neg_ℤ, pos, min, IfOk};
ghost use Rattle.cache_law.specs.Bans.{status_of as status_in, fields_of as fields_in};
ghost use Rattle.client_graph.specs.FoundObject.{reason_in, body_in, in_range as ranged, counted_moment as counted, head_of as head_in, cached_object, passed_object, opened_of, confirmable as confirms};

use cache_law::{Object, ObjectView, can_confirm};
use delivery::{Numbers, ResponseBody, age_at, open_delivery};
use freshness::Timing;
use http_heads::{Fields, ResponseHead};
use std::alloc::{AllocError, Global};
use units::{Copied, Text};
use vcl_context::CachedObject;

/// The last moment that is counted: the end of the year 9999.
const LAST_MOMENT: u64 = 253_402_300_799_999;

fn status_of(object: &Object) -> u16
    ensures { result ≡ status_in object.now }
{
    match object {
        Object::Ordinary(response) => response.content.status,
        Object::HitForMiss(marker) | Object::HitForPass(marker) => marker.status,
    }
}

fn reason_of(alloc: Global, object: &Object) -> Result<Text, AllocError>
    ensures { IfOk result (λ reason. reason ≡ reason_in object.now) }
{
    match object {
        Object::Ordinary(response) => Ok(response.content.reason.copy()?),
        Object::HitForMiss(_) | Object::HitForPass(_) => Text::of(alloc, b""),
    }
}

fn fields_of(alloc: Global, object: &Object) -> Result<Fields, AllocError>
    ensures { IfOk result (λ fields. fields ≡ fields_in object.now) }
{
    match object {
        Object::Ordinary(response) => Ok(response.content.fields.copied(alloc)?),
        Object::HitForMiss(_) | Object::HitForPass(_) => Ok(Fields::new(alloc)),
    }
}

fn body_text(alloc: Global, object: &Object) -> Result<Text, AllocError>
    ensures { IfOk result (λ body. body ≡ body_in object.now) }
{
    match object {
        Object::Ordinary(response) => Ok(response.content.body.copy()?),
        Object::HitForMiss(_) | Object::HitForPass(_) => Text::of(alloc, b""),
    }
}

/// The body of an object, which is that of a response to a request that was passed or not.
pub fn body_of(alloc: Global, object: &Object, passed: bool) -> Result<ResponseBody, AllocError>
    ensures { IfOk result (λ body. body ≡ record { text = body_in object.now; passed = passed }) }
{
    Ok(ResponseBody {
        text: body_text(alloc, object)?,
        passed,
    })
}

fn head_of(alloc: Global, object: &Object) -> Result<ResponseHead, AllocError>
    ensures { IfOk result (λ head. head ≡ head_in object.now) }
{
    Ok(ResponseHead {
        version: 11,
        status: status_of(object),
        reason: reason_of(alloc, object)?,
        fields: fields_of(alloc, object)?,
    })
}

// The nearest number that 64 bits hold.
fn in_range(x: i128) -> i64
    ensures { result ≡ ranged x }
{
    x.min(i128::from(i64::MAX)).max(i128::from(i64::MIN)) as i64
}

fn counted_moment(moment: u64) -> i128
    ensures { result ≡ counted moment }
{
    i128::from(moment.min(LAST_MOMENT))
}

// The moment until which an object of this timing is fresh.
fn fresh_until(timing: Timing) -> i128
    ensures value { result ≡ timing.origin +ℤ timing.ttl }
    ensures low { neg_ℤ (pos (2 ^ 64)) ≤ℤ result }
    ensures high { result ≤ℤ pos (2 ^ 64) }
{
    i128::from(timing.origin) + i128::from(timing.ttl)
}

// How long it is from a moment until another.
fn left_at(until: i128, moment: u64) -> i64
    requires low { neg_ℤ (pos (2 ^ 64)) ≤ℤ until }
    requires high { until ≤ℤ pos (2 ^ 64) }
    ensures { result ≡ ranged (until -ℤ counted moment) }
{
    in_range(until - counted_moment(moment))
}

// For how long it is fresh from a moment on.
fn ttl_at(timing: Timing, moment: u64) -> i64
    ensures { result ≡ ranged (timing.origin +ℤ timing.ttl -ℤ counted moment) }
{
    left_at(fresh_until(timing), moment)
}

// And how old it is.
fn age_in(timing: Timing, moment: u64) -> i64
    ensures { result ≡ ranged (counted moment -ℤ timing.origin) }
{
    in_range(counted_moment(moment) - i128::from(timing.origin))
}

fn hits_of(view: &ObjectView) -> i64
    ensures { result ≡ pos (min view.now.hits 9223372036854775807) }
{
    view.hits.min(9_223_372_036_854_775_807) as i64
}

/// The object as it is at a moment.
pub fn cached_at(
    alloc: Global,
    uncacheable: bool,
    view: &ObjectView,
    moment: u64,
) -> Result<CachedObject, AllocError>
    ensures { IfOk result (λ object. object ≡ cached_object uncacheable view.now moment) }
{
    let timing = view.object.timing();
    Ok(CachedObject {
        head: head_of(alloc, &view.object)?,
        hits: hits_of(view),
        uncacheable,
        ttl: ttl_at(timing, moment),
        age: age_in(timing, moment),
        grace: timing.grace,
        keep: timing.keep,
    })
}

/// The response to a request that was passed, as an object.
pub fn passed_at(alloc: Global, view: &ObjectView, moment: u64) -> Result<CachedObject, AllocError>
    ensures { IfOk result (λ object. object ≡ passed_object view.now moment) }
{
    let mut object = cached_at(alloc, true, view, moment)?;
    object.hits = 0;
    object.ttl = 0;
    object.grace = 0;
    object.keep = 0;
    Ok(object)
}

/// What vcl_deliver begins with.
pub fn opened(
    alloc: Global,
    numbers: Numbers,
    view: &ObjectView,
    moment: u64,
) -> Result<ResponseHead, AllocError>
    ensures { IfOk result (λ head. head ≡ opened_of numbers view.now moment) }
{
    let age = age_at(view.object.timing().origin, moment);
    match &*view.object {
        Object::Ordinary(response) => {
            let content = &response.content;
            open_delivery(
                alloc,
                content.status,
                &content.reason,
                &content.fields,
                numbers,
                age,
            )
        }
        Object::HitForMiss(marker) | Object::HitForPass(marker) => {
            let reason = Text::of(alloc, b"")?;
            open_delivery(
                alloc,
                marker.status,
                &reason,
                &Fields::new(alloc),
                numbers,
                age,
            )
        }
    }
}

/// The object that a backend may confirm while another is given.
pub fn confirmable(view: &ObjectView) -> Result<Option<ObjectView>, AllocError>
    ensures { IfOk result (λ stale. stale ≡ confirms view.now) }
{
    if can_confirm(&view.object) {
        Ok(Some(view.copy()?))
    } else {
        Ok(None)
    }
}
