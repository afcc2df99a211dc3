// The fields that say where a body ends.
ghost use Rattle.std.specs.Prelude.{◌≡◌, IfOk};
ghost use Rattle.http_bodies.specs.Framed.{unframed as without_framing, of_length};

use http_heads::{Fields, with_number};
use std::alloc::{AllocError, Global};

/// The fields without those that say where a body ends.
pub fn unframed(fields: Fields) -> Fields
    ensures { result ≡ without_framing fields }
{
    let mut fields = fields;
    fields.unset(b"content-length");
    fields.unset(b"transfer-encoding");
    fields
}

/// The fields of a message with a body of this length: nothing else says where it ends.
pub fn with_length(alloc: Global, fields: Fields, len: u64) -> Result<Fields, AllocError>
    ensures { IfOk result (λ all. all ≡ of_length len fields) }
{
    with_number(alloc, unframed(fields), b"Content-Length", len)
}
