// Bytes, as texts.
use std::alloc::{AllocError, Global};
use units::quote;

/// Adds the bytes between quotes.
pub fn push_quoted(alloc: Global, out: &mut String, bytes: &[u8]) -> Result<(), AllocError> {
    let text = quote(alloc, bytes)?;
    out.push_str(str::from_utf8(text.bytes()).unwrap_or("no text"))
}
