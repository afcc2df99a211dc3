// When objects are of no use any more.
ghost use Rattle.std.specs.Prelude.{◌≡◌, ◌^◌, ◌+ℤ◌, ◌≤ℤ◌, neg_ℤ, pos};
ghost use Rattle.lazy_store.specs.Members.{end_of};

use cache_law::Object;
use freshness::Timing;

// The sum of two numbers, which 128 bits can hold.
fn sum_of(a: i64, b: i64) -> i128
    ensures value { result ≡ a +ℤ b }
    ensures low { neg_ℤ (pos (2 ^ 64)) ≤ℤ result }
    ensures high { result ≤ℤ pos (2 ^ 64) }
{
    i128::from(a) + i128::from(b)
}

fn end_at(timing: Timing) -> i128
    ensures { result ≡ (timing.origin +ℤ timing.ttl) +ℤ (timing.grace +ℤ timing.keep) }
{
    sum_of(timing.origin, timing.ttl) + sum_of(timing.grace, timing.keep)
}

/// The moment from which on the object isn't in time, in milliseconds since 1970.
pub(crate) fn end_of(object: &Object) -> i128
    ensures { result ≡ end_of object.now }
{
    end_at(object.timing())
}
