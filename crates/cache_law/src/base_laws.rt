// Laws of histories that begin in alike states, and of histories in segments, as contracts of functions that do nothing.
ghost use Rattle.std.specs.Prelude.{◌≡◌, ◌++◌, ◌∷◌, ℕ, List, [], false};
ghost use Rattle.cache_law.specs.declared.call.Call.{Call as Made};
ghost use Rattle.cache_law.specs.declared.call.Entry.{Entry as HistoryEntry};
ghost use Rattle.cache_law.specs.declared.setting.Params.{Params as Limits};
ghost use Rattle.cache_law.specs.declared.setting.Boot.{Boot as Opening};
ghost use Rattle.cache_law.specs.Beginning.{base_of};
ghost use Rattle.cache_law.specs.State.{State};
ghost use Rattle.cache_law.specs.History.{FollowAll, Legal, reached, reached_from};
ghost use Rattle.cache_law.specs.Bases.{AreAlike, IsBase, IsClosed, IsSound};
ghost use Rattle.cache_law.specs.Core.{is_segment_full};
ghost use Rattle.cache_law.specs.Segments.{GoesOn, from};

/// A run's first state is a base, so it is sound; and a sound state stays sound, whatever entries come.
pub fn states_stay_sound()
    ensures first { (boot : Opening) → IsBase (base_of boot) }
    ensures more { (params : Limits) (state : State) (entries : List HistoryEntry) → IsSound state → IsSound (reached_from params state entries) }
{}

/// What is legal from a state is legal from one that is alike, in which more bans may wait, and both reach states that are alike
/// again.
pub fn alike_is_legal()
    ensures legal { (params : Limits) (less more : State) (entries : List HistoryEntry) → AreAlike less more → Legal (from params less) entries → Legal (from params more) entries }
    ensures reached { (params : Limits) (less more : State) (entries : List HistoryEntry) → AreAlike less more → FollowAll params less entries
        → AreAlike (reached_from params less entries) (reached_from params more entries) }
{}

/// From a base that is alike to what a legal history reaches, the empty history is legal.
pub fn reopened_is_legal()
    ensures { (params : Limits) (base next : State) (entries : List HistoryEntry) → Legal (from params base) entries → IsBase next
        → AreAlike next (reached (from params base) entries) → Legal (from params next) [] }
{}

/// Where no segments are kept, no history is full as one: no call is told that a segment ends before it.
pub fn whole_histories_are_not_full()
    ensures { (params : Limits) (state : State) (entries : List HistoryEntry) (caller : ℕ) (call : Made) → params.segments ≡ false
        → is_segment_full params state entries caller call ≡ false }
{}

/// No segment goes on from the first state; and where segments go on from a base, and a legal history from it leaves nothing open,
/// they go on with it from each state that is alike to the one that it reaches.
pub fn segments_go_on()
    ensures first { (params : Limits) (first : State) → GoesOn params first [] first }
    ensures more { (params : Limits) (first base next : State) (segments : List (List HistoryEntry)) (entries : List HistoryEntry)
        → GoesOn params first segments base → Legal (from params base) entries → IsClosed (reached (from params base) entries)
        → AreAlike next (reached (from params base) entries) → GoesOn params first (segments ++ entries ∷ []) next }
{}
