// Laws of what a lazy cache keeps, as contracts of functions that do nothing.
ghost use Rattle.std.specs.Prelude.{◌≡◌, ◌≤◌, ◌+◌, ◌++◌, ◌∷◌, ℕ, Bool, true, false, List, [], Option};
ghost use Rattle.cache_law.specs.declared.call.Call.{Call as Made};
ghost use Rattle.cache_law.specs.declared.call.Call.TheVariants.{Insert, Lookup};
ghost use Rattle.cache_law.specs.declared.call.Query.{Query as Wanted};
ghost use Rattle.cache_law.specs.Lookup.{scanned};
ghost use Rattle.lazy_law.specs.Beside.{counted_for, is_beside, looked_late, touched_for};
ghost use Rattle.cache_law.specs.declared.call.Entry.{Entry as HistoryEntry};
ghost use Rattle.cache_law.specs.declared.call.Reply.TheVariants.{Refused};
ghost use Rattle.cache_law.specs.declared.object.Object.{Object as Stored};
ghost use Rattle.cache_law.specs.Bases.{AreAlike, IsBase, IsClosed, IsSound};
ghost use Rattle.cache_law.specs.Segments.{from};
ghost use Rattle.lazy_law.specs.Reopening.{reopened, state_of};
ghost use Rattle.cache_law.specs.Beginning.{Beginning};
ghost use Rattle.cache_law.specs.History.{next_state, reached};
ghost use Rattle.cache_law.specs.State.{State, at_moment, those_in_time};
ghost use Rattle.cache_law.specs.Law.{MayAnswer, answered, refused};
ghost use Rattle.std.specs.List.{list_any, AllByRecursion};
ghost use Rattle.ban_lurker.specs.declared.chore.Verdict.{Verdict as Finding};
ghost use Rattle.ban_lurker.specs.Verdicts.{IsChoreOf, IsVerdictOf};
ghost use Rattle.lazy_law.specs.Placed.{Lazy, Placed, is_unswept, kept_bans, nothing_kept};
ghost use Rattle.lazy_law.specs.Banning.{MayBeCut, cut_to};
ghost use Rattle.lazy_law.specs.Sweeping.{chore_of, count_chosen, count_unswept, is_asked, judged_lazy, swept_lazy};
ghost use Rattle.lazy_law.specs.Stands.{Stands, StandsFor};
ghost use Rattle.lazy_law.specs.Late.{answered_late, desk_of, late_entry};
ghost use Rattle.lazy_law.specs.Standing.{StandsAt};

/// Where a history begins with no object and no ban, nothing that is kept stands for it.
pub fn nothing_stands_for_nothing()
    ensures { (beginning : Beginning) → beginning.base.issued ≡ 0 → beginning.base.bans ≡ [] → beginning.base.objects ≡ [] → StandsAt nothing_kept beginning [] }
{}

/// What stands for a state stands for it at each later moment.
pub fn time_changes_nothing()
    ensures { (lazy : Lazy) (state : State) (moment : ℕ) → state.moment ≤ moment → Stands lazy state → Stands lazy (at_moment moment state) }
{}

/// Each call, answered over what stands for a state, has a reply that the law allows in the state, and leaves what stands for the
/// state that the law's reply leaves. Where a call is refused for want of memory, what was kept stands for the state behind that.
pub fn calls_are_the_laws()
    ensures answer { (room : ℕ) (lazy : Lazy) (state : State) (caller moment : ℕ) (call : Made) → state.moment ≤ moment → Stands lazy state
        → MayAnswer (at_moment moment state) call (answered room (at_moment moment state) caller call).reply (answered_late room (desk_of (at_moment moment state)) caller call lazy).reply }
    ensures stands { (room : ℕ) (lazy : Lazy) (state : State) (caller moment : ℕ) (call : Made) → state.moment ≤ moment → Stands lazy state
        → StandsFor (answered_late room (desk_of (at_moment moment state)) caller call lazy).lazy moment (answered room (at_moment moment state) caller call).state.issued
        (answered room (at_moment moment state) caller call).state.bans (answered room (at_moment moment state) caller call).state.objects }
    ensures refused { (lazy : Lazy) (state : State) (moment : ℕ) (call : Made) → state.moment ≤ moment → Stands lazy state → Stands lazy (refused (at_moment moment state) call) }
{}

/// What stands for the state that a history reaches, and looks as the history has it, does so for the history with one more entry: as
/// each call leaves it, and as it was where an insertion is refused for want of memory.
pub fn histories_go_on()
    ensures call { (beginning : Beginning) (entries : List HistoryEntry) (lazy : Lazy) (caller moment : ℕ) (call : Made) → IsSound beginning.base
        → (reached beginning entries).moment ≤ moment → StandsAt lazy beginning entries
        → StandsAt (answered_late beginning.params.room (desk_of (at_moment moment (reached beginning entries))) caller call lazy).lazy beginning
        (entries ++ late_entry beginning.params.room (reached beginning entries) caller moment call lazy ∷ []) }
    ensures refusal { (beginning : Beginning) (entries : List HistoryEntry) (lazy : Lazy) (caller moment token : ℕ) (object : Stored) (stale : Option ℕ)
        → (reached beginning entries).moment ≤ moment → StandsAt lazy beginning entries
        → StandsAt lazy beginning (entries ++ record { caller = caller; moment = moment; call = Insert token object stale; reply = Refused } ∷ []) }
{}

/// What stands for a history stands for it with one more entry that leaves bans and objects as they were at its moment, where it
/// stores nothing and softens nothing; and with a lookup that leaves what its scan and the use of an object leave.
pub fn other_entries_go_on()
    ensures beside { (beginning : Beginning) (entries : List HistoryEntry) (entry : HistoryEntry) (lazy : Lazy) → is_beside entry.call entry.reply ≡ true
        → (reached beginning entries).moment ≤ entry.moment → StandsAt lazy beginning entries
        → (next_state beginning.params (reached beginning entries) entry).issued ≡ (reached beginning entries).issued
        → (next_state beginning.params (reached beginning entries) entry).bans ≡ (reached beginning entries).bans
        → (next_state beginning.params (reached beginning entries) entry).objects ≡ those_in_time entry.moment (reached beginning entries).objects
        → StandsAt lazy beginning (entries ++ entry ∷ []) }
    ensures lookup { (beginning : Beginning) (entries : List HistoryEntry) (entry : HistoryEntry) (lazy : Lazy) (query : Wanted) (place : ℕ) (hit marker : Option ℕ)
        → entry.call ≡ Lookup query → (reached beginning entries).moment ≤ entry.moment → StandsAt lazy beginning entries
        → (next_state beginning.params (reached beginning entries) entry).issued ≡ (reached beginning entries).issued
        → (next_state beginning.params (reached beginning entries) entry).bans ≡ (reached beginning entries).bans
        → (next_state beginning.params (reached beginning entries) entry).objects
        ≡ touched_for place marker (counted_for place hit (scanned entry.moment query (those_in_time entry.moment (reached beginning entries).objects)).objects)
        → StandsAt (looked_late entry.moment query place hit marker lazy) beginning (entries ++ entry ∷ []) }
{}

/// The lurker leaves what stands for the same history, whichever objects it sweeps; and so many fewer wait for it then as it swept of
/// those that waited.
pub fn sweeps_are_unseen()
    ensures stands { (beginning : Beginning) (entries : List HistoryEntry) (lazy : Lazy) (chosen : Placed → Bool) → StandsAt lazy beginning entries
        → StandsAt (swept_lazy chosen lazy) beginning entries }
    ensures fewer { (beginning : Beginning) (entries : List HistoryEntry) (lazy : Lazy) (chosen : Placed → Bool) → StandsAt lazy beginning entries
        → count_unswept (swept_lazy chosen lazy) + count_chosen chosen lazy ≡ count_unswept lazy }
{}

/// What the lurker takes out of an object that waits is a chore of the history.
pub fn chores_are_of_the_history()
    ensures { (beginning : Beginning) (entries : List HistoryEntry) (lazy : Lazy) → StandsAt lazy beginning entries
        → AllByRecursion (λ (placed : Placed). is_unswept (kept_bans lazy) placed ≡ true → IsChoreOf beginning entries (chore_of lazy placed)) lazy.objects }
{}

/// A verdict of the history that is settled leaves what stands for the same history; and where it is on no object as it is, all is
/// as it was.
pub fn verdicts_are_unseen()
    ensures stands { (beginning : Beginning) (entries : List HistoryEntry) (lazy : Lazy) (verdict : Finding) → IsVerdictOf beginning entries verdict
        → StandsAt lazy beginning entries → StandsAt (judged_lazy verdict lazy) beginning entries }
    ensures fewer { (beginning : Beginning) (entries : List HistoryEntry) (lazy : Lazy) (verdict : Finding) → IsVerdictOf beginning entries verdict
        → count_unswept (judged_lazy verdict lazy) ≤ count_unswept lazy }
    ensures left { (lazy : Lazy) (verdict : Finding) → list_any (is_asked verdict) lazy.objects ≡ false → judged_lazy verdict lazy ≡ lazy }
{}

/// A cut of the oldest lines, none of which an object needs, leaves what stands for the same history.
pub fn cuts_are_unseen()
    ensures { (beginning : Beginning) (entries : List HistoryEntry) (lazy : Lazy) (left : ℕ) → MayBeCut left lazy → StandsAt lazy beginning entries
        → StandsAt (cut_to left lazy) beginning entries }
{}

/// Where nothing is open, what is left of what is kept stands for a base that is alike to the state that the history reached, so a
/// new history may begin there.
pub fn reopened_ones_go_on()
    ensures base { (beginning : Beginning) (entries : List HistoryEntry) (lazy : Lazy) → IsSound beginning.base → IsClosed (reached beginning entries) → StandsAt lazy beginning entries
        → IsBase (state_of (desk_of (reached beginning entries)) (reopened (reached beginning entries).moment lazy)) }
    ensures alike { (beginning : Beginning) (entries : List HistoryEntry) (lazy : Lazy) → IsSound beginning.base → IsClosed (reached beginning entries) → StandsAt lazy beginning entries
        → AreAlike (state_of (desk_of (reached beginning entries)) (reopened (reached beginning entries).moment lazy)) (reached beginning entries) }
    ensures stands { (beginning : Beginning) (entries : List HistoryEntry) (lazy : Lazy) → IsSound beginning.base → IsClosed (reached beginning entries) → StandsAt lazy beginning entries
        → StandsAt (reopened (reached beginning entries).moment lazy)
        (from beginning.params (state_of (desk_of (reached beginning entries)) (reopened (reached beginning entries).moment lazy))) [] }
{}
