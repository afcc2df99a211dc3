//! What a soft purge leaves of an object.
//!
//! Contract for the layer above: `softened` gives the object with a lifetime that ends at the moment, where it doesn't end
//! before. The object that it is given stays as it is, since others may share it.
#![tactic(auto)]

ghost use Rattle.std.specs.Prelude.{◌≡◌, ◌-ℤ◌, ◌≤ℤ◌, ◌-◌, ◌^◌, neg_ℤ, pos, IfOk};
ghost use Rattle.cache_law.specs.Purges.{ended_by, softened as softened_by};

use cache_law::{Object, Response};
use freshness::Timing;
use std::alloc::{AllocError, Global};
use units::Shared;

/// How long something lives that ends at the moment.
fn lived_by(moment: u64, origin: i64) -> i128
    ensures value { result ≡ pos moment -ℤ origin }
    ensures low { neg_ℤ (pos (2 ^ 63)) ≤ℤ result }
{
    i128::from(moment) - i128::from(origin)
}

/// A number that 64 bits hold.
fn narrowed(number: i128) -> i64
    requires low { neg_ℤ (pos (2 ^ 63)) ≤ℤ number }
    requires high { number ≤ℤ pos (2 ^ 63 - 1) }
    ensures { result ≡ number }
{
    number as i64
}

/// The timing of a lifetime that ends at the moment, where it doesn't end before.
fn ended(moment: u64, timing: Timing) -> Timing
    ensures { result ≡ ended_by moment timing }
{
    let lived = lived_by(moment, timing.origin);
    if lived < i128::from(timing.ttl) {
        Timing {
            ttl: narrowed(lived),
            ..timing
        }
    } else {
        timing
    }
}

/// The object as a soft purge at the moment leaves it: a response's lifetime ends, and a marker stays as it is.
pub fn softened(
    alloc: Global,
    moment: u64,
    object: &Shared<Object>,
) -> Result<Shared<Object>, AllocError>
    ensures { IfOk result (λ soft. soft ≡ softened_by moment object.now) }
{
    match &**object {
        Object::Ordinary(response) => {
            let response = Response {
                timing: ended(moment, response.timing),
                content: response.content.copy()?,
            };
            Shared::new(alloc, Object::Ordinary(response))
        }
        Object::HitForMiss(_) => object.copy(),
        Object::HitForPass(_) => object.copy(),
    }
}
