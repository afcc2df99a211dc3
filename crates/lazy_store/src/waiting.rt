// How many objects wait for the lurker.
ghost use Rattle.std.specs.Prelude.{◌≡◌};
ghost use Rattle.lazy_store.specs.Changes.{fewer, is_waiting, with_mark};

/// Whether an object of this mark waits, where so many do, and those do whose mark is below the newest number.
pub(crate) fn is_waiting(unswept: u64, newest: u64, mark: u64) -> bool
    ensures { result ≡ is_waiting unswept newest mark }
{
    unswept > 0 && mark < newest
}

/// How many wait without one of this mark.
pub(crate) fn fewer(unswept: u64, newest: u64, mark: u64) -> u64
    ensures { result ≡ fewer unswept newest mark }
{
    if is_waiting(unswept, newest, mark) {
        return unswept - 1;
    }
    unswept
}

/// How many wait where one of the first mark has the second.
pub(crate) fn with_mark(unswept: u64, newest: u64, mark: u64, later: u64) -> u64
    ensures { result ≡ with_mark unswept newest mark later }
{
    if is_waiting(unswept, newest, mark) && !is_waiting(unswept, newest, later) {
        return unswept - 1;
    }
    unswept
}
