// What callers of a cache do.
ghost use Rattle.std.specs.Prelude.{List, ◌++◌, ℕ};
ghost use Rattle.cache_law.specs.declared.call.Entry.{Entry as HistoryEntry};
ghost use Rattle.cache_law.specs.Beginning.{Beginning};

/// What callers of a cache do, as events tell it.
pub trait Callers {
    /// What a caller does, as one call or more.
    type Event;

    /// Whom a caller tells of it.
    type Keeper;

    /// What stays open where a segment ends, as a connection, and what was read of it and not answered.
    type Talk;

    /// The keeper was told these events.
    ghost Tells: { Self.Keeper → Self.Keeper → List Self.Event → Type 0 };

    /// The places of the calls of an event, among all entries of the run.
    ghost places_in: { Self.Event → List ℕ };

    /// Something may have been read of what is open, and nothing else came of it.
    ghost Waits: { Self.Talk → Self.Talk → Type 0 };

    /// What was open went on by this event.
    ghost Steps: { Self.Talk → Self.Event → Self.Talk → Type 0 };

    /// These events are so over the history of a segment, for the caller of this number.
    ghost Holds: { Beginning → List HistoryEntry → ℕ → List Self.Event → Type 0 };

    /// Events, and then others.
    ghost tells_then: { (before mid after : Self.Keeper) (events others : List Self.Event) → Tells before mid events → Tells mid after others
        → Tells before after (events ++ others) };

    ghost waits_then: { (before mid after : Self.Talk) → Waits before mid → Waits mid after → Waits before after };

    /// What was read before a segment's end goes on behind it.
    ghost steps_later: { (before mid after : Self.Talk) (event : Self.Event) → Waits before mid → Steps mid event after → Steps before event after };
}
