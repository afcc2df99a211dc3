// Objects of rows.
ghost use Rattle.std.specs.Prelude.{◌≡◌, IfOk};
ghost use Rattle.cache_law.specs.Object.{key_of};

use cache_law::{Marker, Object};
use std::alloc::{AllocError, Global};
use units::{Sequence, Shared, Text};

/// A marker of the key, the status and the lifetime, made at the moment 0.
pub fn marker(
    alloc: Global,
    key: Sequence<Text>,
    status: u16,
    lifetime: i64,
) -> Result<Shared<Object>, AllocError>
    ensures { IfOk result (λ object. key_of object ≡ key) }
{
    let marker = Marker {
        key,
        vary: Sequence::new(alloc),
        status,
        origin: 0,
        ttl: lifetime,
    };
    Shared::new(alloc, Object::HitForPass(marker))
}
