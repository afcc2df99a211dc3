// What an entry takes of the history's limit.
use cache_law::entry_bytes;
use core_rows::call;
use std::alloc::{AllocError, Global};

/// How many bytes of the history an entry of the call takes.
pub fn bytes_shown(alloc: Global, line: &str) -> Result<String, AllocError> {
    match call(alloc, line)? {
        Some(call) => format!(in alloc; "{}", entry_bytes(&call)),
        None => format!(in alloc; "no call"),
    }
}
