// The limits of backends.
ghost use Rattle.std.specs.Prelude.{◌≡◌, IfOk};
ghost use Rattle.vcl_attributes.specs.BackendLimits.{limits_in, limits_of, limits_with};

use crate::readers::{first_duration, first_integer};
use std::alloc::{AllocError, Global};
use units::Text;
use vcl_tree::{Attribute, Item};

/// How long a backend is waited for, in milliseconds, and how many connections it is given, as the text says it; none where it
/// says no number.
#[derive(Drop)]
pub struct Limits {
    pub backend: Text,
    pub connect_timeout: i64,
    pub first_byte_timeout: i64,
    pub between_bytes_timeout: i64,
    pub max_connections: Option<i64>,
}

fn limits_with(name: &Text, attributes: &[Attribute]) -> Result<Limits, AllocError>
    ensures { IfOk result (λ limits. limits ≡ limits_with name.now attributes.now) }
{
    Ok(Limits {
        backend: name.copy()?,
        connect_timeout: first_duration(b"connect_timeout", attributes).unwrap_or(3500),
        first_byte_timeout: first_duration(b"first_byte_timeout", attributes).unwrap_or(60_000),
        between_bytes_timeout: first_duration(b"between_bytes_timeout", attributes).unwrap_or(
            60_000,
        ),
        max_connections: first_integer(b"max_connections", attributes),
    })
}

fn limits_in(item: &Item) -> Result<Option<Limits>, AllocError>
    ensures { IfOk result (λ found. found ≡ limits_in item.now) }
{
    match item {
        Item::Backend(_, name, attributes) => {
            Ok(Some(limits_with(&name.text, attributes.as_slice())?))
        }
        _ => Ok(None),
    }
}

/// The limits of a text's backends, in their order.
pub fn limits_of(alloc: Global, items: &[Item]) -> Result<Vec<Limits>, AllocError>
    ensures { IfOk result (λ limits. limits.items ≡ limits_of items.now) }
{
    let mut all = Vec::new(alloc);
    for item in items {
        if let Some(limits) = limits_in(item)? {
            all.push(limits)?;
        }
    }
    Ok(all)
}
