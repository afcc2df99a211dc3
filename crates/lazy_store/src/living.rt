// Which objects are in time and not dead.
ghost use Rattle.std.specs.Prelude.{◌≡◌, IfOk};
ghost use Rattle.lazy_law.specs.Insertion.{is_gone_late};
ghost use Rattle.lazy_law.specs.Placed.{is_alive, kept_bans};
ghost use Rattle.lazy_store.specs.Members.{number_in, placed_in};
ghost use Rattle.lazy_store.specs.Numbered.{is_alive_at};
ghost use Rattle.lazy_store.specs.Tied.{AreApart};

use crate::Store;
use crate::placement::Placement;
use cache_law::is_in_time;
use object_heads::Item;
use std::alloc::{AllocError, Global};

impl Store {
    /// Whether a stale object is named that isn't there any more: it isn't stored, isn't in time at the moment, or a ban matches
    /// it. An error means that memory was wanting.
    pub fn is_gone(
        &self,
        alloc: Global,
        moment: u64,
        stale: Option<u64>,
    ) -> Result<bool, AllocError>
        ensures { IfOk result (λ gone. gone ≡ is_gone_late moment (kept_bans self.now) stale self.now.objects) }
    {
        match stale {
            Some(number) => Ok(!self.is_alive_at(alloc, moment, number)?),
            None => Ok(false),
        }
    }

    /// Whether there is an object of the number, and it is in time and not dead. No two objects have one number.
    pub(crate) fn is_alive_at(
        &self,
        alloc: Global,
        moment: u64,
        number: u64,
    ) -> Result<bool, AllocError>
        ensures alive { IfOk result (λ alive. alive ≡ is_alive_at moment self.now number) }
        ensures apart { AreApart number_in self.now.objects }
    {
        match self.item(number) {
            Some(item) => self.is_alive(alloc, moment, item),
            None => Ok(false),
        }
    }

    fn is_alive(
        &self,
        alloc: Global,
        moment: u64,
        item: &Item<Placement>,
    ) -> Result<bool, AllocError>
        ensures { IfOk result (λ alive. alive ≡ is_alive moment (kept_bans self.now) (placed_in item.now)) }
    {
        if !is_in_time(moment, &item.view.object) {
            return Ok(false);
        }
        Ok(!self.is_dead(alloc, item)?)
    }
}
