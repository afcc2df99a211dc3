// The responses that vcl_deliver and vcl_synth begin with.
ghost use Rattle.std.specs.Prelude.{◌≡◌, All, IfOk, ℤ, codes};
ghost use Rattle.std.specs.Fmt.{decimal};
ghost use Rattle.http_heads.specs.Fields.{replaced};
ghost use Rattle.delivery.specs.Opened.{age_of, numbers_text, opened, opened_synthetic};

use http_heads::{Fields, ResponseHead, with_field, with_number, with_only_field};
use std::alloc::{AllocError, Global};
use units::{Copied, Text, push_number, write_number};

/// The numbers that a response carries.
#[derive(Clone, Copy, Debug)]
pub struct Numbers {
    /// The request's.
    pub round: u64,
    /// Of the object that was found, where one was.
    pub object: Option<u64>,
}

/// The age in whole seconds, at a moment in milliseconds since 1970, of a response that was made at `origin`.
pub fn age_at(origin: i64, moment: u64) -> u64
    ensures { result ≡ age_of origin moment }
{
    let passed = i128::from(moment) - i128::from(origin);
    if passed < 0 {
        0
    } else {
        (passed as u128 / 1000) as u64
    }
}

fn write_numbers(alloc: Global, numbers: Numbers) -> Result<Text, AllocError>
    ensures { IfOk result (λ text. text ≡ numbers_text numbers) }
{
    let mut out = Vec::new(alloc);
    push_number(&mut out, alloc, numbers.round)?;
    if let Some(object) = numbers.object {
        out.push(b' ')?;
        push_number(&mut out, alloc, object)?;
    }
    Text::from_vec(out)
}

// The fields with this age, and no other.
fn with_age(alloc: Global, fields: Fields, age: u64) -> Result<Fields, AllocError>
    ensures { IfOk result (λ all. all ≡ replaced (codes "Age") (decimal age) fields) }
{
    let digits = write_number(alloc, age)?;
    with_only_field(alloc, fields, b"Age", digits.bytes())
}

/// The response of an object, or of a fetch that isn't stored, as vcl_deliver gets it. Its age stands in the place of each one
/// that the backend told.
pub fn open_delivery(
    alloc: Global,
    status: u16,
    reason: &Text,
    fields: &Fields,
    numbers: Numbers,
    age: u64,
) -> Result<ResponseHead, AllocError>
    ensures { IfOk result (λ head. head ≡ opened status reason.now fields.now numbers age) }
{
    let text = write_numbers(alloc, numbers)?;
    let fields = with_field(alloc, fields.copied(alloc)?, b"X-Varnish", text.bytes())?;
    Ok(ResponseHead {
        version: 11,
        status,
        reason: reason.copy()?,
        fields: with_age(alloc, fields, age)?,
    })
}

/// A response that no backend made, as vcl_synth gets it. Its body is empty.
pub fn open_synthetic(
    alloc: Global,
    status: u16,
    reason: &Text,
    round: u64,
) -> Result<ResponseHead, AllocError>
    ensures { IfOk result (λ head. head ≡ opened_synthetic status reason.now round) }
{
    Ok(ResponseHead {
        version: 11,
        status,
        reason: reason.copy()?,
        fields: with_number(alloc, Fields::new(alloc), b"X-Varnish", round)?,
    })
}
