// What is handed back, in places that were made before.
ghost use Rattle.std.specs.Prelude.{◌≡◌, ◌++◌, [], ◌∷◌, Some, IfOk};
ghost use Rattle.wire.specs.Kept.{items_of};

use std::alloc::{AllocError, Global};

/// A place for what is handed back, and those that were filled before it.
#[derive(Drop)]
pub struct Kept<T> {
    pub item: Option<T>,
    pub before: Option<Box<Kept<T>>>,
}

/// An empty place.
pub fn place<T: Drop>(alloc: Global) -> Result<Box<Kept<T>>, AllocError>
    ensures { IfOk result (λ place. items_of (Some place) ≡ []) }
{
    Ok(Box::new(
        alloc,
        Kept {
            item: None,
            before: None,
        },
    )?)
}

/// Puts an item behind the others. It takes no memory.
pub fn keep<T: Drop>(latest: &mut Option<Box<Kept<T>>>, mut place: Box<Kept<T>>, item: T)
    ensures { items_of latest.new ≡ items_of latest.old ++ item ∷ [] }
{
    place.item = Some(item);
    place.before = latest.take();
    *latest = Some(place);
}
