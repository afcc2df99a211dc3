// Changes of several objects, by their numbers.
ghost use Rattle.std.specs.Prelude.{◌≡◌};
ghost use Rattle.lazy_store.specs.Changes.{moved};
ghost use Rattle.lazy_store.specs.Numbered.{tested_all, without_all};

use crate::Store;
use ban_list::Stand;

impl Store {
    /// Takes out the objects of these numbers, as far as they are there. It takes no memory.
    pub fn drop_all(&mut self, numbers: &[u64])
        ensures { self.new ≡ without_all numbers.now self.old }
    {
        for number in numbers {
            self.remove(*number);
        }
    }

    /// The objects of these numbers, as far as they are there, count as tested on all bans. It takes no memory.
    pub fn test_all(&mut self, numbers: &[u64])
        ensures { self.new ≡ tested_all numbers.now self.old }
    {
        for number in numbers {
            self.test(*number);
        }
    }

    fn test(&mut self, number: u64)
        ensures { self.new ≡ moved number (record { place = self.old.issued; mark = self.old.issued }) self.old }
    {
        let issued = self.issued();
        let stand = Stand {
            place: issued,
            mark: issued,
        };
        self.move_to(number, stand);
    }
}
