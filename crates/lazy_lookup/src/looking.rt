// What a lookup sees.
ghost use Rattle.std.specs.Prelude.{◌≡◌, ◌++◌, ◌∷◌, [], None, Some, IfOk, OnOk};
ghost use Rattle.std.specs.Option.{option_or};
ghost use Rattle.cache_law.specs.Lookup.{first_of as first_passing, is_in_grace};
ghost use Rattle.cache_law.specs.Object.{can_confirm};
ghost use Rattle.lazy_lookup.specs.Marks.{AreMarksOf, scan_of};
ghost use Rattle.lazy_lookup.specs.Sights.{at_number, ends_there, joined, nothing_seen, seeing, seeing_there, seen_all};

use crate::marks::Marks;
use crate::sight::{Sight, is_end, sight_of};
use cache_frame::Seen;
use cache_law::{ObjectView, Query, can_confirm, is_in_grace_for};
use lazy_store::Store;
use std::alloc::{AllocError, Global};
use units::{Sequence, out_of_memory};

fn nothing(alloc: Global) -> Seen<Marks>
    ensures { result ≡ nothing_seen }
{
    Seen {
        fresh: None,
        grace: None,
        stale: None,
        marks: Marks {
            gone: Sequence::new(alloc),
            tested: Sequence::new(alloc),
        },
    }
}

/// Keeps what was found before, or else the object where it passes.
fn find_first(
    found: &mut Option<ObjectView>,
    passes: bool,
    view: &ObjectView,
) -> Result<(), AllocError>
    ensures { OnOk result (found.new ≡ option_or found.old (first_passing passes view.now None)) }
{
    if passes && found.is_none() {
        drop(found.replace(view.copy()?));
    }
    Ok(())
}

/// An object that isn't fresh.
fn add_aged(
    seen: &mut Seen<Marks>,
    moment: u64,
    query: &Query,
    view: &ObjectView,
) -> Result<(), AllocError>
    ensures { OnOk result (seen.new ≡ record seen.old {
      grace = option_or seen.old.grace (first_passing (is_in_grace moment query.now.options view.now.object) view.now None);
      stale = option_or seen.old.stale (first_passing (can_confirm view.now.object) view.now None);
    }) }
{
    let graced = is_in_grace_for(moment, &query.options, &view.object);
    find_first(&mut seen.grace, graced, view)?;
    find_first(&mut seen.stale, can_confirm(&view.object), view)
}

fn add_fresh(seen: &mut Seen<Marks>, view: &ObjectView) -> Result<(), AllocError>
    ensures { OnOk result (seen.new ≡ record seen.old { fresh = Some view.now }) }
{
    drop(seen.fresh.replace(view.copy()?));
    Ok(())
}

fn mark_gone(marks: &mut Marks, number: u64) -> Result<(), AllocError>
    ensures { OnOk result (marks.new ≡ record marks.old { gone = marks.old.gone ++ number ∷ [] }) }
{
    marks.gone.push(number)?;
    Ok(())
}

fn mark_tested(marks: &mut Marks, number: u64) -> Result<(), AllocError>
    ensures { OnOk result (marks.new ≡ record marks.old { tested = marks.old.tested ++ number ∷ [] }) }
{
    marks.tested.push(number)?;
    Ok(())
}

/// One object more, in which the lookup sees this.
fn add(
    seen: &mut Seen<Marks>,
    moment: u64,
    query: &Query,
    sight: Sight,
    view: &ObjectView,
) -> Result<(), AllocError>
    requires { seen.old.fresh ≡ None }
    ensures { OnOk result (seen.new ≡ joined seen.old (seeing moment query.now sight view.now nothing_seen)) }
{
    match sight {
        Sight::Past => Ok(()),
        Sight::Struck => mark_gone(&mut seen.marks, view.number),
        Sight::Unfit => mark_tested(&mut seen.marks, view.number),
        Sight::Aged => {
            mark_tested(&mut seen.marks, view.number)?;
            add_aged(seen, moment, query, view)
        }
        Sight::Fresh => {
            mark_tested(&mut seen.marks, view.number)?;
            add_fresh(seen, view)
        }
    }
}

/// Looks at the object of the number, where there is one, and says whether the walk ends there.
fn look_at(
    seen: &mut Seen<Marks>,
    store: &Store,
    alloc: Global,
    moment: u64,
    query: &Query,
    number: u64,
) -> Result<bool, AllocError>
    requires { seen.old.fresh ≡ None }
    ensures ends { IfOk result (λ ends. ends ≡ ends_there moment query.now store.now (at_number number store.now)) }
    ensures seen { OnOk result (seen.new ≡ joined seen.old (seeing_there moment query.now store.now (at_number number store.now) nothing_seen)) }
{
    let Some(item) = store.item(number) else {
        return Ok(false);
    };
    let sight = sight_of(store, alloc, moment, query, item)?;
    add(seen, moment, query, sight, &item.view)?;
    Ok(is_end(sight))
}

/// Looks at the objects of these numbers, one after another, up to a fresh one.
fn look_at_all(
    store: &Store,
    alloc: Global,
    moment: u64,
    query: &Query,
    numbers: &[u64],
) -> Result<Seen<Marks>, AllocError>
    ensures { IfOk result (λ seen. seen ≡ seen_all moment query.now store.now numbers.now) }
{
    let mut seen = nothing(alloc);
    for number in numbers {
        let ends = match look_at(&mut seen, store, alloc, moment, query, *number) {
            Ok(ends) => ends,
            Err(_) => return Err(out_of_memory(seen)),
        };
        if ends {
            return Ok(seen);
        }
    }
    Ok(seen)
}

/// What a lookup sees at the moment, and what becomes of the objects that it comes to: an object of the key that is in time
/// is tested on the bans that it wasn't tested on, alone and with the request. It changes nothing. An error means that
/// memory was wanting.
pub fn look(
    store: &Store,
    alloc: Global,
    moment: u64,
    query: &Query,
) -> Result<Seen<Marks>, AllocError>
    ensures fresh { IfOk result (λ seen. seen.fresh ≡ (scan_of moment query.now store.now).fresh) }
    ensures grace { IfOk result (λ seen. seen.grace ≡ (scan_of moment query.now store.now).grace) }
    ensures stale { IfOk result (λ seen. seen.stale ≡ (scan_of moment query.now store.now).stale) }
    ensures marks { IfOk result (λ seen. AreMarksOf moment query.now store.now seen.marks) }
{
    let numbers = store.numbers_of_key(alloc, query.key.as_slice())?;
    look_at_all(store, alloc, moment, query, &numbers)
}
