// What the fields of a stored response become once a 304 has confirmed it.
ghost use Rattle.std.specs.Prelude.{◌≡◌, ◌<◌, ◌↔◌, length, filter, IsTrue, IfOk, IsErrOf};
ghost use Rattle.freshness.specs.Merging.{merged, is_lacking};
ghost use Rattle.http_heads.specs.Limits.{set_limit};

use http_heads::{Field, FieldError, Fields, MAX_SET_FIELDS};
use std::alloc::{AllocError, Global};
use units::Copied;

/// The old fields whose names the new ones lack, and then the new ones (RFC 9111, section 3.2). `Full` where these are
/// over 72.
pub fn merge(alloc: Global, old: &Fields, new: &Fields) -> Result<Fields, FieldError>
    ensures ok { IfOk result (λ fields. fields ≡ merged old.now new.now) }
    ensures full { IsErrOf result FieldError.Full ↔ (set_limit < length (merged old.now new.now)) }
    ensures bad { IsErrOf result FieldError.Bad → ⊥ }
{
    if is_too_many(old.as_slice(), new) {
        return Err(FieldError::Full);
    }
    match joined(alloc, old.as_slice(), new) {
        Ok(fields) => Ok(Fields::from_vec(fields)),
        Err(_) => Err(FieldError::NoMemory),
    }
}

fn is_too_many(old: &[Field], new: &Fields) -> bool
    ensures { IsTrue result ↔ (set_limit < length (merged old.now new.now)) }
{
    let kept = count_lacking(old, new);
    kept > MAX_SET_FIELDS || new.len() > MAX_SET_FIELDS - kept
}

fn count_lacking(old: &[Field], new: &Fields) -> usize
    ensures { result ≡ length (filter (is_lacking new.now) old.now) }
{
    old.iter().filter(|field| lacks(new, field)).count()
}

fn lacks(fields: &Fields, field: &Field) -> bool
    ensures { result ≡ is_lacking fields.now field.now }
{
    fields.count(field.name.bytes()) == 0
}

fn joined(alloc: Global, old: &[Field], new: &Fields) -> Result<Vec<Field>, AllocError>
    ensures { IfOk result (λ fields. fields.items ≡ merged old.now new.now) }
{
    let mut fields = Vec::new(alloc);
    for field in old {
        if lacks(new, field) {
            fields.push(field.copied(alloc)?)?;
        }
    }
    for field in new.as_slice() {
        fields.push(field.copied(alloc)?)?;
    }
    Ok(fields)
}
