// The answer to a call, once for the caller and once for the history.
ghost use Rattle.std.specs.Prelude.{◌≡◌, IfOk};

use cache_law::Reply;
use std::alloc::{AllocError, Global};
use units::{Copied, out_of_memory};

/// An answer to a call.
#[derive(Drop)]
pub struct Answer {
    pub told: Reply,
    pub kept: Reply,
}

impl Answer {
    /// The reply, and its copy for the history.
    pub fn twice(alloc: Global, told: Reply) -> Result<Answer, AllocError>
        ensures told { IfOk result (λ answer. answer.told ≡ told) }
        ensures kept { IfOk result (λ answer. answer.kept ≡ told) }
    {
        match told.copied(alloc) {
            Ok(kept) => Ok(Answer { told, kept }),
            Err(_) => Err(out_of_memory(told)),
        }
    }
}
