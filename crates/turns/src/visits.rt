// The list that the lock keeps: the numbers of those who had turns.
ghost use Rattle.std.specs.Prelude.{◌≡◌, [], length, nat_lt};

use std::alloc::Global;
use turnstile::Chronicle;

/// Its history is the list itself. A token is closed once more than so many numbers stand there.
#[derive(Drop)]
pub struct Visits {
    pub callers: Vec<u32>,
}

impl Visits {
    pub fn new(alloc: Global) -> Visits
        ensures { result.callers.items ≡ [] }
    {
        Visits {
            callers: Vec::new(alloc),
        }
    }
}

impl Chronicle for Visits {
    type Entry = u32;

    type Setting = ();

    ghost caller = { λ e. e };

    ghost history = { λ v. v.callers.items };

    ghost setting = { λ _. tt };

    ghost Sound = { λ _. Unit {0} };

    ghost closed = { λ _ token entries. nat_lt token (length entries) };

    fn is_closed(&self, token: u64) -> bool {
        token < self.callers.len() as u64
    }
}
