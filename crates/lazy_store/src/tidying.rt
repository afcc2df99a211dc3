// What is done where room is wanting.
ghost use Rattle.std.specs.Prelude.{◌≡◌, OnOk};
ghost use Rattle.lazy_store.specs.Lurking.{AreSwept};
ghost use Rattle.lazy_store.specs.Tidying.{swept_whole, with_timely};

use crate::Store;
use std::alloc::{AllocError, Global};

impl Store {
    /// Takes out the objects that aren't in time at the moment. It takes no memory.
    pub fn drop_ended(&mut self, moment: u64)
        ensures { self.new ≡ with_timely moment self.old }
    {
        while let Some(number) = self.ended(moment) {
            self.remove(number);
        }
    }

    /// Tests all objects that wait for the lurker on all bans on objects alone. One that a ban matches goes. Where memory is
    /// wanting some were tested.
    pub fn sweep_all(&mut self, alloc: Global) -> Result<(), AllocError>
        ensures ok { OnOk result (self.new ≡ swept_whole self.old) }
        ensures only { AreSwept self.old self.new }
    {
        while let Some(number) = self.next_waiting() {
            let _mark = self.newest_mark();
            self.sweep(alloc, number)?;
        }
        Ok(())
    }
}
