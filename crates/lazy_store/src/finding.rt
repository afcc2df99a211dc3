// An object by its number.
ghost use Rattle.std.specs.Prelude.{◌≡◌, ◌≤◌, nat_eq, true, option_map, IfNone, IfSome};
ghost use Rattle.std.specs.List.{AllByRecursion, list_any};
ghost use Rattle.lazy_store.specs.Members.{at_number, handle_of, stand_of};
ghost use Rattle.lazy_store.specs.Found.{found_in, is_marked_below, last_use};
ghost use Rattle.lazy_store.specs.Tied.{AreApart, IsAhead};

use crate::placement::Placement;
use object_heads::Heads;

/// Where an object is found, and what is kept of it.
#[derive(Clone, Copy)]
pub struct Found {
    pub handle: u64,
    pub placement: Placement,
}

/// The object of the number.
pub(crate) fn find(heads: &Heads<Placement>, number: u64) -> Option<Found>
    requires { AreApart handle_of heads.now }
    ensures { result ≡ option_map found_in (at_number number heads.now) }
{
    match heads.handle_of(number) {
        Some(handle) => match heads.get(handle) {
            Some(item) => Some(Found {
                handle,
                placement: item.payload,
            }),
            None => None,
        },
        None => None,
    }
}

/// The place at which the object of the number, if one is given, was used last.
pub(crate) fn last_use(heads: &Heads<Placement>, number: Option<u64>) -> Option<u64>
    requires { AreApart handle_of heads.now }
    ensures { result ≡ last_use number heads.now }
{
    match number {
        Some(number) => match find(heads, number) {
            Some(found) => Some(found.placement.used),
            None => None,
        },
        None => None,
    }
}

/// An object that waits for the lurker.
#[derive(Clone, Copy)]
pub struct Waiting {
    pub handle: u64,
    pub number: u64,
}

/// The object of this handle, where its mark is below the number.
fn waiting_at(heads: &Heads<Placement>, handle: u64, newest: u64) -> Option<Waiting>
    requires { AreApart handle_of heads.now }
    ensures some { IfSome result (λ waiting. list_any (is_marked_below waiting.number newest) heads.now ≡ true) }
    ensures none { IfNone result (AllByRecursion (λ member. nat_eq handle (handle_of member) ≡ true → newest ≤ (stand_of member).mark) heads.now) }
{
    match heads.get(handle) {
        Some(item) => {
            if newest <= item.payload.stand.mark {
                return None;
            }
            Some(Waiting {
                handle,
                number: item.view.number,
            })
        }
        None => None,
    }
}

/// An object from this handle on whose mark is below the number.
pub(crate) fn waiting_from(heads: &Heads<Placement>, handle: u64, newest: u64) -> Option<Waiting>
    requires apart { AreApart handle_of heads.now }
    requires ahead { AllByRecursion IsAhead heads.now }
    ensures some { IfSome result (λ waiting. list_any (is_marked_below waiting.number newest) heads.now ≡ true) }
    ensures none { IfNone result (AllByRecursion (λ member. handle ≤ handle_of member → newest ≤ (stand_of member).mark) heads.now) }
{
    // that the handles rise
    let _rise = heads.is_newest(handle);
    let mut from = handle;
    while let Some(next) = heads.first_from(from) {
        if let Some(waiting) = waiting_at(heads, next, newest) {
            return Some(waiting);
        }
        if next == u64::MAX {
            return None;
        }
        from = next + 1;
    }
    None
}

/// An object whose mark is below the number: one from this handle on, or one before it.
pub(crate) fn waiting_round(heads: &Heads<Placement>, handle: u64, newest: u64) -> Option<Waiting>
    requires apart { AreApart handle_of heads.now }
    requires ahead { AllByRecursion IsAhead heads.now }
    ensures some { IfSome result (λ waiting. list_any (is_marked_below waiting.number newest) heads.now ≡ true) }
    ensures none { IfNone result (AllByRecursion (λ member. newest ≤ (stand_of member).mark) heads.now) }
{
    match waiting_from(heads, handle, newest) {
        Some(waiting) => Some(waiting),
        None => waiting_from(heads, 0, newest),
    }
}
