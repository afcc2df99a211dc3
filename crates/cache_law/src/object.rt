// What a cache holds under a key: responses, and the markers of keys whose responses aren't kept.
ghost use Rattle.std.specs.Prelude.{◌≡◌, ◌^◌, ◌+ℤ◌, ◌≤ℤ◌, neg_ℤ, pos, IfOk};
ghost use Rattle.cache_law.specs.Object.{in_time, is_marker, key_of, timing_of, vary_of};

use freshness::Timing;
use http_heads::Fields;
use std::alloc::AllocError;
use units::{Sequence, Shared, Text};

/// A field of requests by which a response was chosen, with its values in the request that it answered.
#[derive(Drop)]
pub struct VaryItem {
    pub name: Text,
    pub values: Sequence<Text>,
}

/// What a response holds beside its timing.
#[derive(Drop)]
pub struct Content {
    /// The texts that `hash_data` was given, in order.
    pub key: Sequence<Text>,
    /// The fields that its Vary fields name.
    pub vary: Sequence<VaryItem>,
    /// Whether a Vary field has `*`: then it was chosen by more than the fields of a request.
    pub varies_always: bool,
    pub status: u16,
    pub reason: Text,
    pub fields: Fields,
    pub body: Text,
    /// The names by which `xkey.purge` and `xkey.softpurge` find it. None is empty.
    pub xkeys: Sequence<Text>,
}

/// A response that serves by its timing.
#[derive(Drop)]
pub struct Response {
    pub timing: Timing,
    pub content: Shared<Content>,
}

/// What is remembered of a key whose response isn't kept. It serves for `ttl` milliseconds from `origin` on, without
/// grace, and isn't kept behind that.
#[derive(Drop)]
pub struct Marker {
    /// The texts that `hash_data` was given, in order.
    pub key: Sequence<Text>,
    /// The fields that the response's Vary fields named.
    pub vary: Sequence<VaryItem>,
    pub status: u16,
    /// In milliseconds since 1970.
    pub origin: i64,
    pub ttl: i64,
}

/// What a fetch made, as it is handed to the cache.
#[derive(Drop)]
pub enum Object {
    Ordinary(Response),
    /// Requests of the key fetch each for itself, and may store what they fetch.
    HitForMiss(Marker),
    /// Requests of the key are passed.
    HitForPass(Marker),
}

impl Object {
    pub fn key(&self) -> &[Text]
        ensures { result.now ≡ key_of self.now }
    {
        match self {
            Object::Ordinary(response) => response.content.key.as_slice(),
            Object::HitForMiss(marker) => marker.key.as_slice(),
            Object::HitForPass(marker) => marker.key.as_slice(),
        }
    }

    pub fn vary(&self) -> &[VaryItem]
        ensures { result.now ≡ vary_of self.now }
    {
        match self {
            Object::Ordinary(response) => response.content.vary.as_slice(),
            Object::HitForMiss(marker) => marker.vary.as_slice(),
            Object::HitForPass(marker) => marker.vary.as_slice(),
        }
    }

    pub fn timing(&self) -> Timing
        ensures { result ≡ timing_of self.now }
    {
        match self {
            Object::Ordinary(response) => response.timing,
            Object::HitForMiss(marker) => timing_of(marker),
            Object::HitForPass(marker) => timing_of(marker),
        }
    }

    /// Whether it stands for responses that aren't kept.
    pub fn is_marker(&self) -> bool
        ensures { result ≡ is_marker self.now }
    {
        match self {
            Object::Ordinary(_) => false,
            Object::HitForMiss(_) => true,
            Object::HitForPass(_) => true,
        }
    }
}

fn timing_of(marker: &Marker) -> Timing
    ensures { result ≡ record { origin = marker.now.origin; ttl = marker.now.ttl; grace = pos 0; keep = pos 0 } }
{
    Timing {
        origin: marker.origin,
        ttl: marker.ttl,
        grace: 0,
        keep: 0,
    }
}

/// An object that the cache holds, under the number of its fetch.
#[derive(Drop)]
pub struct ObjectView {
    pub number: u64,
    /// How often it was given.
    pub hits: u64,
    pub object: Shared<Object>,
}

impl ObjectView {
    /// The same view again, of the same object.
    pub fn copy(&self) -> Result<ObjectView, AllocError>
        ensures { IfOk result (λ view. view ≡ self.now) }
    {
        Ok(ObjectView {
            number: self.number,
            hits: self.hits,
            object: self.object.copy()?,
        })
    }
}

/// The sum of two numbers, which 128 bits can hold.
pub(crate) fn sum_of(a: i64, b: i64) -> i128
    ensures value { result ≡ a +ℤ b }
    ensures low { neg_ℤ (pos (2 ^ 64)) ≤ℤ result }
    ensures high { result ≤ℤ pos (2 ^ 64) }
{
    i128::from(a) + i128::from(b)
}

/// The moment from which on an object of this timing is of no use.
fn end_of(timing: Timing) -> i128
    ensures { result ≡ (timing.origin +ℤ timing.ttl) +ℤ (timing.grace +ℤ timing.keep) }
{
    sum_of(timing.origin, timing.ttl) + sum_of(timing.grace, timing.keep)
}

/// Whether the object is of any use at the moment: fresh, in grace or kept.
pub fn is_in_time(moment: u64, object: &Object) -> bool
    ensures { result ≡ in_time moment object.now }
{
    i128::from(moment) < end_of(object.timing())
}
