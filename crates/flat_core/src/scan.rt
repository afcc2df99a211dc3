// A lookup's scan of the objects in memory.
ghost use Rattle.std.specs.Prelude.{◌≡◌, None, Some, IfOk, OnOk};
ghost use Rattle.std.specs.Option.{option_or};
ghost use Rattle.cache_law.specs.Lookup.{first_of as first_passing, is_in_grace};
ghost use Rattle.cache_law.specs.Object.{can_confirm};
ghost use Rattle.flat_core.specs.Scans.{joined, nothing_seen, seeing, seen_all, sight_of};

use crate::matching::{LookupMatch, fate_of, is_end, sight_of};
use crate::stored_ban::StoredBan;
use crate::stored_object::{Fate, StoredObject};
use cache_law::{ObjectView, Query, can_confirm, is_in_grace_for};
use std::alloc::{AllocError, Global};
use std::collections::VecDeque;
use units::{Sequence, out_of_memory};

/// What a scan saw: a fresh object, which ended it, the first object in grace and the first that the backend may confirm, and
/// what becomes of the objects that it came to.
#[derive(Drop)]
pub(crate) struct Seen {
    pub fresh: Option<ObjectView>,
    pub grace: Option<ObjectView>,
    pub stale: Option<ObjectView>,
    pub fates: Sequence<Fate>,
}

/// Keeps what was found before, or else the object where it passes.
fn find_first(
    found: &mut Option<ObjectView>,
    passes: bool,
    view: &ObjectView,
) -> Result<(), AllocError>
    ensures { OnOk result (found.new ≡ option_or found.old (first_passing passes view.now None)) }
{
    if passes && found.is_none() {
        drop(found.replace(view.copy()?));
    }
    Ok(())
}

impl Seen {
    fn nothing(alloc: Global) -> Seen
        ensures { result ≡ nothing_seen }
    {
        Seen {
            fresh: None,
            grace: None,
            stale: None,
            fates: Sequence::new(alloc),
        }
    }

    /// An object that isn't fresh.
    fn add_aged(&mut self, moment: u64, query: &Query, view: &ObjectView) -> Result<(), AllocError>
        ensures { OnOk result (self.new ≡ record self.old {
          grace = option_or self.old.grace (first_passing (is_in_grace moment query.now.options view.now.object) view.now None);
          stale = option_or self.old.stale (first_passing (can_confirm view.now.object) view.now None);
        }) }
    {
        let graced = is_in_grace_for(moment, &query.options, &view.object);
        find_first(&mut self.grace, graced, view)?;
        find_first(&mut self.stale, can_confirm(&view.object), view)
    }

    fn add_fresh(&mut self, view: &ObjectView) -> Result<(), AllocError>
        ensures { OnOk result (self.new ≡ record self.old { fresh = Some view.now }) }
    {
        drop(self.fresh.replace(view.copy()?));
        Ok(())
    }

    /// One object more, in which the lookup sees this.
    fn add(
        &mut self,
        moment: u64,
        query: &Query,
        count: u64,
        sight: LookupMatch,
        kept: &StoredObject,
    ) -> Result<(), AllocError>
        requires { self.old.fresh ≡ None }
        ensures { OnOk result (self.new ≡ joined self.old (seeing moment query.now count sight kept.now nothing_seen)) }
    {
        self.fates.push(fate_of(count, sight, kept))?;
        match sight {
            LookupMatch::Other | LookupMatch::Banned | LookupMatch::Unfit => Ok(()),
            LookupMatch::Aged => self.add_aged(moment, query, &kept.view),
            LookupMatch::Fresh => self.add_fresh(&kept.view),
        }
    }

    /// Looks at one object more, and answers what the lookup sees in it.
    fn look_at(
        &mut self,
        alloc: Global,
        moment: u64,
        query: &Query,
        issued: u64,
        bans: &VecDeque<StoredBan>,
        kept: &StoredObject,
    ) -> Result<LookupMatch, AllocError>
        requires { self.old.fresh ≡ None }
        ensures sight { IfOk result (λ sight. sight ≡ sight_of moment query.now bans.now.items kept.now) }
        ensures seen { IfOk result (λ sight. self.new ≡ joined self.old (seeing moment query.now issued sight kept.now nothing_seen)) }
    {
        let sight = sight_of(alloc, moment, query, bans, kept)?;
        self.add(moment, query, issued, sight, kept)?;
        Ok(sight)
    }
}

/// The lookup's scan of the objects, newest first, up to a fresh one.
pub(crate) fn scan(
    alloc: Global,
    objects: &VecDeque<StoredObject>,
    issued: u64,
    bans: &VecDeque<StoredBan>,
    moment: u64,
    query: &Query,
) -> Result<Seen, AllocError>
    ensures { IfOk result (λ seen. seen ≡ seen_all moment query.now issued bans.now.items objects.now.items) }
{
    let mut seen = Seen::nothing(alloc);
    for place in 0..objects.len() {
        let sight = match seen.look_at(alloc, moment, query, issued, bans, &objects[place]) {
            Ok(sight) => sight,
            Err(_) => return Err(out_of_memory(seen)),
        };
        if is_end(sight) {
            return Ok(seen);
        }
    }
    Ok(seen)
}
