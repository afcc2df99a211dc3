// The reasons that go with statuses.
ghost use Rattle.std.specs.Prelude.{◌≡◌, Some, IfOk};
ghost use Rattle.vcl_context.specs.Reasons as due;

use std::alloc::{AllocError, Global};
use units::Text;

fn some_text(alloc: Global, text: &[u8]) -> Result<Option<Text>, AllocError>
    ensures { IfOk result (λ made. made ≡ Some text.now) }
{
    Ok(Some(Text::of(alloc, text)?))
}

/// The reason that goes with a status (RFC 9110, section 15). None where the table has none.
pub(crate) fn reason_of(alloc: Global, status: i64) -> Result<Option<Text>, AllocError>
    ensures { IfOk result (λ reason. reason ≡ due.reason_of status) }
{
    match status {
        200 => some_text(alloc, b"OK"),
        400 => some_text(alloc, b"Bad Request"),
        403 => some_text(alloc, b"Forbidden"),
        404 => some_text(alloc, b"Not Found"),
        405 => some_text(alloc, b"Method Not Allowed"),
        500 => some_text(alloc, b"Internal Server Error"),
        501 => some_text(alloc, b"Not Implemented"),
        503 => some_text(alloc, b"Service Unavailable"),
        _ => Ok(None),
    }
}

/// The reason of a status where VCL gives none.
pub fn reason_or_unknown(alloc: Global, status: i64) -> Result<Text, AllocError>
    ensures { IfOk result (λ reason. reason ≡ due.reason_or_unknown status) }
{
    match reason_of(alloc, status)? {
        Some(reason) => Ok(reason),
        None => Text::of(alloc, b"Unknown"),
    }
}
