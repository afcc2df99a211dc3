// The numbers of objects.
ghost use Rattle.std.specs.Prelude.{◌≡◌, IfOk};
ghost use Rattle.lazy_store.specs.Numbered.{number_at, numbers_at};

use crate::placement::Placement;
use object_heads::Heads;
use std::alloc::{AllocError, Global};

/// The number of the object of the handle.
pub(crate) fn number_at(heads: &Heads<Placement>, handle: u64) -> Option<u64>
    ensures { result ≡ number_at heads.now handle }
{
    match heads.get(handle) {
        Some(item) => Some(item.view.number),
        None => None,
    }
}

/// The numbers of the objects of these handles.
pub(crate) fn numbers_at(
    heads: &Heads<Placement>,
    alloc: Global,
    handles: &[u64],
) -> Result<Vec<u64>, AllocError>
    ensures { IfOk result (λ numbers. numbers.items ≡ numbers_at heads.now handles.now) }
{
    let mut numbers = Vec::new(alloc);
    for handle in handles {
        if let Some(number) = number_at(heads, *handle) {
            numbers.push(number)?;
        }
    }
    Ok(numbers)
}
