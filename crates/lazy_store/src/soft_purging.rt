// Soft purges of objects by xkeys.
ghost use Rattle.std.specs.Prelude.{◌≡◌, ◌++◌, ◌∷◌, [], filter, IfOk, OnErr, OnOk, if◌then◌else◌};
ghost use Rattle.lazy_law.specs.Placed.{kept_bans};
ghost use Rattle.lazy_law.specs.Purging.{count_alive, is_of_xkeys};
ghost use Rattle.lazy_store.specs.Numbered.{is_alive_at};
ghost use Rattle.lazy_store.specs.Softening.{is_dead_at, marked, marked_all, softly_purged};

use crate::Store;
use ban_list::Stand;
use cache_law::is_in_time;
use std::alloc::{AllocError, Global};
use units::Text;

/// The objects in time that a soft purge comes to, by their numbers: those that no ban matches, and those that one does.
#[derive(Drop)]
struct Fates {
    alive: Vec<u64>,
    dead: Vec<u64>,
}

impl Store {
    /// Ends the lifetime of all objects in time that have one of the xkeys and that no ban matches, takes those out that one
    /// does, and says how many the first were. Where memory is wanting all is as before.
    pub fn soften(&mut self, alloc: Global, moment: u64, keys: &[Text]) -> Result<u64, AllocError>
        ensures count { IfOk result (λ count. count ≡ count_alive moment (kept_bans self.old) (is_of_xkeys keys.now) self.old.objects) }
        ensures ok { OnOk result (self.new ≡ softly_purged moment keys.now self.old) }
        ensures err { OnErr result (self.new ≡ self.old) }
    {
        let numbers = self.numbers_of_xkeys(alloc, keys)?;
        let fates = self.fates_of(alloc, moment, &numbers)?;
        let alive = fates.alive.as_slice();
        self.soften_all(alloc, moment, alive)?;
        self.mark_all(alive);
        self.drop_all(fates.dead.as_slice());
        Ok(alive.len() as u64)
    }

    fn fates_of(&self, alloc: Global, moment: u64, numbers: &[u64]) -> Result<Fates, AllocError>
        ensures alive { IfOk result (λ fates. fates.alive.items ≡ filter (is_alive_at moment self.now) numbers.now) }
        ensures dead { IfOk result (λ fates. fates.dead.items ≡ filter (is_dead_at moment self.now) numbers.now) }
    {
        let mut fates = Fates {
            alive: Vec::new(alloc),
            dead: Vec::new(alloc),
        };
        for number in numbers {
            self.add_fate(&mut fates, alloc, moment, *number)?;
        }
        Ok(fates)
    }

    // Puts the number to those of its kind, where its object is there and in time.
    fn add_fate(
        &self,
        fates: &mut Fates,
        alloc: Global,
        moment: u64,
        number: u64,
    ) -> Result<(), AllocError>
        ensures alive { OnOk result (fates.new.alive.items ≡ (if is_alive_at moment self.now number then fates.old.alive.items ++ number ∷ [] else fates.old.alive.items)) }
        ensures dead { OnOk result (fates.new.dead.items ≡ (if is_dead_at moment self.now number then fates.old.dead.items ++ number ∷ [] else fates.old.dead.items)) }
    {
        let Some(item) = self.item(number) else {
            return Ok(());
        };
        if !is_in_time(moment, &item.view.object) {
            return Ok(());
        }
        if self.is_dead(alloc, item)? {
            fates.dead.push(number)?;
        } else {
            fates.alive.push(number)?;
        }
        Ok(())
    }

    // The objects of these numbers, as far as they are there, count as tested on all bans on objects alone. It takes no memory.
    fn mark_all(&mut self, numbers: &[u64])
        ensures { self.new ≡ marked_all numbers.now self.old }
    {
        for number in numbers {
            self.mark(*number);
        }
    }

    fn mark(&mut self, number: u64)
        ensures { self.new ≡ marked number self.old }
    {
        let place = match self.item(number) {
            Some(item) => item.payload.stand.place,
            None => return,
        };
        let mark = self.issued();
        self.move_to(number, Stand { place, mark });
    }
}
