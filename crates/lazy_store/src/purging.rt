// Purges of objects by key and by xkeys.
ghost use Rattle.std.specs.Prelude.{◌≡◌, filter, length, IfOk, OnErr, OnOk};
ghost use Rattle.lazy_law.specs.Placed.{kept_bans};
ghost use Rattle.lazy_law.specs.Purging.{count_alive, is_of_key, is_of_xkeys};
ghost use Rattle.lazy_store.specs.Numbered.{is_alive_at, without_all};
ghost use Rattle.lazy_store.specs.Purged.{purged};

use crate::Store;
use std::alloc::{AllocError, Global};
use units::Text;

impl Store {
    /// Takes out all objects of the key, and says how many of them were in time and not dead at the moment. Where memory is
    /// wanting all is as before.
    pub fn purge(&mut self, alloc: Global, moment: u64, key: &[Text]) -> Result<u64, AllocError>
        ensures count { IfOk result (λ count. count ≡ count_alive moment (kept_bans self.old) (is_of_key key.now) self.old.objects) }
        ensures ok { OnOk result (self.new ≡ purged (is_of_key key.now) self.old) }
        ensures err { OnErr result (self.new ≡ self.old) }
    {
        let numbers = self.numbers_of_key(alloc, key)?;
        self.purge_numbers(alloc, moment, &numbers)
    }

    /// Takes out all objects that have one of the xkeys, and says how many of them were in time and not dead at the moment.
    /// Where memory is wanting all is as before.
    pub fn purge_by(&mut self, alloc: Global, moment: u64, keys: &[Text]) -> Result<u64, AllocError>
        ensures count { IfOk result (λ count. count ≡ count_alive moment (kept_bans self.old) (is_of_xkeys keys.now) self.old.objects) }
        ensures ok { OnOk result (self.new ≡ purged (is_of_xkeys keys.now) self.old) }
        ensures err { OnErr result (self.new ≡ self.old) }
    {
        let numbers = self.numbers_of_xkeys(alloc, keys)?;
        self.purge_numbers(alloc, moment, &numbers)
    }

    // Takes out the objects of these numbers, and says how many of them were alive.
    fn purge_numbers(
        &mut self,
        alloc: Global,
        moment: u64,
        numbers: &[u64],
    ) -> Result<u64, AllocError>
        ensures count { IfOk result (λ count. count ≡ length (filter (is_alive_at moment self.old) numbers.now)) }
        ensures ok { OnOk result (self.new ≡ without_all numbers.now self.old) }
        ensures err { OnErr result (self.new ≡ self.old) }
    {
        let count = self.count_alive(alloc, moment, numbers)?;
        self.drop_all(numbers);
        Ok(count)
    }

    // How many of the objects of these numbers are alive.
    fn count_alive(&self, alloc: Global, moment: u64, numbers: &[u64]) -> Result<u64, AllocError>
        ensures { IfOk result (λ count. count ≡ length (filter (is_alive_at moment self.now) numbers.now)) }
    {
        let mut count: usize = 0;
        for number in numbers {
            if self.is_alive_at(alloc, moment, *number)? {
                count += 1;
            }
        }
        Ok(count as u64)
    }
}
