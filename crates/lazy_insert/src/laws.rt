// A law of what insertions leave, as a contract of a function that does nothing.
ghost use Rattle.std.specs.Prelude.{List};
ghost use Rattle.cache_law.specs.declared.call.Entry.{Entry as HistoryEntry};
ghost use Rattle.cache_law.specs.Beginning.{Beginning};
ghost use Rattle.cache_law.specs.History.{reached};
ghost use Rattle.lazy_law.specs.Placed.{Lazy};
ghost use Rattle.lazy_law.specs.Standing.{StandsAt};
ghost use Rattle.lazy_insert.specs.Inserted.{IsTidied};

/// What is left by an insertion that stored nothing stands for the same history, whose last moment is the insertion's.
pub fn tidied_ones_are_unseen()
    ensures { (beginning : Beginning) (entries : List HistoryEntry) (old new : Lazy) → IsTidied (reached beginning entries).moment old new
        → StandsAt old beginning entries → StandsAt new beginning entries }
{}
