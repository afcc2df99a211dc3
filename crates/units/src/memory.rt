// Values that are let go.
ghost use Rattle.std.specs.Prelude.{◌≡◌, alloc_error};

use std::alloc::AllocError;

/// Memory was wanting, and what was held is let go: here once, and not part by part on each way out where it was held.
pub fn out_of_memory<V: Drop>(_held: V) -> AllocError
    ensures { result ≡ alloc_error }
{
    AllocError
}
