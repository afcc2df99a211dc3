// Laws of the room for objects, as contracts of functions that do nothing.
ghost use Rattle.std.specs.Prelude.{◌≡◌, ◌≤◌, ◌<◌, ℕ, List, Option, length, take};
ghost use Rattle.cache_law.specs.declared.call.Entry.{Entry as HistoryEntry};
ghost use Rattle.cache_law.specs.Beginning.{Beginning};
ghost use Rattle.cache_law.specs.Bases.{IsSound};
ghost use Rattle.cache_law.specs.State.{Held, at_moment, sizes_of, without_stale};
ghost use Rattle.cache_law.specs.History.{reached};
ghost use Rattle.cache_law.specs.Room.{AreUsedApart, MakesRoom, by_use, displaced};

/// Behind a sound state no two objects were last used at one place, nor, at any moment, two of those in time beside a stale
/// one.
pub fn objects_are_used_apart()
    ensures all { (beginning : Beginning) (entries : List HistoryEntry) → IsSound beginning.base → AreUsedApart (reached beginning entries).objects }
    ensures others { (beginning : Beginning) (entries : List HistoryEntry) (moment : ℕ) (stale : Option ℕ) → IsSound beginning.base
        → AreUsedApart (without_stale stale (at_moment moment (reached beginning entries)).objects) }
{}

/// The objects that one of a size displaces are the least recently used ones, and as few as make room for it. Where it is
/// greater than the room, no number of them makes room.
pub fn room_is_made()
    ensures first { (room size : ℕ) (others : List Held) → AreUsedApart others
        → by_use (displaced room size others) ≡ take (length (displaced room size others)) (by_use others) }
    ensures least { (room size : ℕ) (others : List Held) → AreUsedApart others → size ≤ room → MakesRoom room size others (length (displaced room size others)) }
    ensures only { (room size count : ℕ) (others : List Held) → AreUsedApart others → MakesRoom room size others count → count ≡ length (displaced room size others) }
    ensures none { (room size count : ℕ) (others : List Held) → room < size → MakesRoom room size others count → ⊥ }
{}

/// Behind a sound state whose objects are within the room, the objects that are stored stay within it.
pub fn sizes_stay_within()
    ensures { (beginning : Beginning) (entries : List HistoryEntry) → IsSound beginning.base → sizes_of beginning.base.objects ≤ beginning.params.room
        → sizes_of (reached beginning entries).objects ≤ beginning.params.room }
{}
