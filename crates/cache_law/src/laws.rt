// Laws of histories, as contracts of functions that do nothing.
ghost use Rattle.std.specs.Prelude.{◌≡◌, ◌≤◌, ◌<◌, ◌++◌, ◌∷◌, ℕ, List, Some, true};
ghost use Rattle.cache_law.specs.declared.call.Entry.{Entry as HistoryEntry};
ghost use Rattle.cache_law.specs.declared.call.Query.{Query as Sought};
ghost use Rattle.cache_law.specs.declared.object.ObjectView.{ObjectView as View};
ghost use Rattle.cache_law.specs.declared.call.Call.TheVariants.{Drop as DropCall, End, Lookup};
ghost use Rattle.cache_law.specs.declared.call.Reply.TheVariants.{Hit, Wait};
ghost use Rattle.cache_law.specs.declared.setting.Params.{Params as Limits};
ghost use Rattle.cache_law.specs.Beginning.{Beginning};
ghost use Rattle.cache_law.specs.State.{Held, State, at_moment, has_fetch, has_round, is_closed, is_open};
ghost use Rattle.cache_law.specs.Law.{MayAnswer, step_of};
ghost use Rattle.cache_law.specs.History.{Fits, Legal, lawful_entry, reached};
ghost use Rattle.cache_law.specs.Core.{FitsBehind, Serves};
ghost use Rattle.cache_law.specs.Drawing.{drawn_in};
ghost use Rattle.cache_law.specs.LookedUp.{IsLookedUp, says_found};
ghost use Rattle.cache_law.specs.BanHistories.{IsAmong};
ghost use Rattle.cache_law.specs.Bases.{IsSound};
ghost use Rattle.cache_law.specs.Fields.{HandFew, HaveFew};

/// Behind a legal history the end of an open round fits, at any moment: it uses what is reserved.
pub fn closing_fits()
    ensures { (beginning : Beginning) (entries : List HistoryEntry) (caller moment : ℕ) →
        Legal beginning entries → has_round (reached beginning entries).rounds caller ≡ true →
        FitsBehind beginning entries caller moment End }
{}

/// Behind a legal history the drop of an open fetch of its caller fits, at any moment.
pub fn dropping_fits()
    ensures { (beginning : Beginning) (entries : List HistoryEntry) (caller moment token : ℕ) →
        Legal beginning entries → has_fetch (reached beginning entries).fetches caller token ≡ true →
        FitsBehind beginning entries caller moment (DropCall token) }
{}

/// An entry with any reply that its call may have fits where the one with the law's own reply does: a refusal leaves no more open,
/// and a list of bans opens nothing.
pub fn any_answer_fits()
    ensures { (params : Limits) (state : State) (used : ℕ) (entry : HistoryEntry) →
        MayAnswer (at_moment entry.moment state) entry.call (step_of params state entry.caller entry.moment entry.call).reply entry.reply →
        Fits params state used (lawful_entry params state entry.caller entry.moment entry.call) → Fits params state used entry }
{}

/// The next number never falls.
pub fn numbers_rise()
    ensures { (beginning : Beginning) (entries more : List HistoryEntry) →
        (reached beginning entries).next ≤ (reached beginning (entries ++ more)).next }
{}

/// Behind a sound state each open fetch has a number that was drawn.
pub fn open_numbers_are_drawn()
    ensures { (beginning : Beginning) (entries : List HistoryEntry) (token : ℕ) → IsSound beginning.base →
        is_open (reached beginning entries).fetches token ≡ true → token < (reached beginning entries).next }
{}

/// A number that was drawn and whose fetch is closed is never open again: a token is closed once.
pub fn closed_once()
    ensures { (beginning : Beginning) (entries more : List HistoryEntry) (token : ℕ) →
        token < (reached beginning entries).next → is_closed (reached beginning entries).fetches token ≡ true →
        is_closed (reached beginning (entries ++ more)).fetches token ≡ true }
{}

/// Behind a sound state no two objects have one number.
pub fn objects_have_own_numbers()
    ensures { (beginning : Beginning) (entries : List HistoryEntry) (one other : Held) → IsSound beginning.base →
        IsAmong one (reached beginning entries).objects → IsAmong other (reached beginning entries).objects →
        one.view.number ≡ other.view.number → one ≡ other }
{}

/// In a legal history the object of a hit is one of the key that may answer the request, and is in time and fresh for
/// the lookup at the hit's moment.
pub fn hits_are_fresh()
    ensures { (beginning : Beginning) (before behind : List HistoryEntry) (entry : HistoryEntry) (query : Sought) (view : View) →
        Legal beginning (before ++ entry ∷ behind) → entry.call ≡ Lookup query → entry.reply ≡ Hit view →
        Serves entry.moment query view.object }
{}

/// In a legal history each answer of a lookup, a hit of any kind, a wait or a miss, stands at a lookup, and only where a
/// lookup gives it in the state that the entries before it reach.
pub fn answers_are_looked_up()
    ensures { (beginning : Beginning) (before behind : List HistoryEntry) (entry : HistoryEntry) →
        Legal beginning (before ++ entry ∷ behind) → says_found entry.reply ≡ true → IsLookedUp (reached beginning before) entry }
{}

/// In a legal history a number that is drawn later is greater: none is drawn twice.
pub fn numbers_are_drawn_once()
    ensures { (beginning : Beginning) (before between behind : List HistoryEntry) (first second : HistoryEntry) (number other : ℕ) →
        Legal beginning (before ++ first ∷ (between ++ second ∷ behind)) → drawn_in first.reply ≡ Some number → drawn_in second.reply ≡ Some other → number < other }
{}

/// In a legal history a lookup is told to wait for a fetch that is open where it stands.
pub fn waits_are_for_open_fetches()
    ensures { (beginning : Beginning) (before behind : List HistoryEntry) (entry : HistoryEntry) (token : ℕ) →
        Legal beginning (before ++ entry ∷ behind) → entry.reply ≡ Wait token → is_open (reached beginning before).fetches token ≡ true }
{}

/// Where no object that is there at the beginning has more fields than so many, and none that an insertion hands over, none that is
/// stored has more.
pub fn fields_stay_few()
    ensures { (most : ℕ) (beginning : Beginning) (entries : List HistoryEntry) → HaveFew most beginning.base.objects → HandFew most entries
        → HaveFew most (reached beginning entries).objects }
{}
