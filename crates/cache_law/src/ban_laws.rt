// Laws of bans, as contracts of functions that do nothing.
ghost use Rattle.std.specs.Prelude.{◌≡◌, ◌⊎◌, ◌++◌, ◌∷◌, ℕ, List, [], Some, true, false, map};
ghost use Rattle.std.specs.List.{AllByRecursion};
ghost use Rattle.cache_law.specs.declared.object.Object.{Object as Stored};
ghost use Rattle.cache_law.specs.declared.call.RequestView.{RequestView as Asked};
ghost use Rattle.cache_law.specs.declared.ban.Issued.{Issued as IssuedBan};
ghost use Rattle.cache_law.specs.declared.object.ObjectView.{ObjectView as View};
ghost use Rattle.cache_law.specs.declared.ban.Ban.{Ban as BanWords};
ghost use Rattle.cache_law.specs.declared.call.Query.{Query as Sought};
ghost use Rattle.cache_law.specs.declared.call.Call.TheVariants.{Ban as BanCall, Lookup};
ghost use Rattle.cache_law.specs.declared.call.Entry.{Entry as HistoryEntry};
ghost use Rattle.cache_law.specs.Beginning.{Beginning};
ghost use Rattle.cache_law.specs.Bases.{IsSound};
ghost use Rattle.cache_law.specs.History.{Legal, reached};
ghost use Rattle.cache_law.specs.BanHistories.{WasSpared, WasStored, WasTested, given, has_number, heirs, issued_in};
ghost use Rattle.cache_law.specs.State.{Held, at_moment};
ghost use Rattle.cache_law.specs.Bans.{matches, meets, object_only, is_equal, is_shown};
ghost use Rattle.cache_law.specs.ShownBans.{ShowsBans};
ghost use Rattle.cache_law.specs.BansAtOnce.{AwaitIssued, ban_over, open_lines};

/// Equal bans match alike, whenever they were issued.
pub fn equal_bans_match_alike()
    ensures objects { (some other : IssuedBan) (object : Stored) → is_equal some.ban other.ban ≡ true → matches object some ≡ matches object other }
    ensures requests { (some other : IssuedBan) (object : Stored) (request : Asked) → is_equal some.ban other.ban ≡ true
        → meets object request some ≡ meets object request other }
    ensures alone { (some other : IssuedBan) → is_equal some.ban other.ban ≡ true → object_only some.ban ≡ object_only other.ban }
{}

/// A ban on objects alone matches an object with every request or with none.
pub fn no_request_matters()
    ensures { (issued : IssuedBan) (object : Stored) (request : Asked) → object_only issued.ban ≡ true → meets object request issued ≡ matches object issued }
{}

/// A list of bans shows each ban that is in it.
pub fn bans_show_themselves()
    ensures { (bans : List IssuedBan) → AllByRecursion (λ ban. is_shown bans ban ≡ true) bans }
{}

/// A ban on objects alone leaves no object that it matches, and any other takes none away.
pub fn bans_act_at_once()
    ensures alone { (issued : IssuedBan) (objects : List Held) → object_only issued.ban ≡ true
        → AllByRecursion (λ held. matches held.view.object issued ≡ false) (ban_over issued objects) }
    ensures others { (issued : IssuedBan) (objects : List Held) → object_only issued.ban ≡ false
        → map (λ held. held.view) (ban_over issued objects) ≡ map (λ held. held.view) objects }
{}

/// What objects have still to be tested on stay bans that were issued, whatever ban is issued next.
pub fn only_issued_bans_wait()
    ensures { (issued : IssuedBan) (bans : List IssuedBan) (objects : List Held) → AwaitIssued bans objects
        → AwaitIssued (issued ∷ bans) (ban_over issued objects) }
{}

/// All bans that were issued are a list of bans that shows what objects have still to be tested on.
pub fn all_bans_are_shown()
    ensures { (bans : List IssuedBan) (objects : List Held) → AwaitIssued bans objects → ShowsBans bans objects (open_lines bans) }
{}

/// Behind a sound state all bans that were issued are a list of bans that may be answered, at any moment.
pub fn all_bans_may_be_listed()
    ensures { (beginning : Beginning) (entries : List HistoryEntry) (moment : ℕ) → IsSound beginning.base
        → ShowsBans (reached beginning entries).bans (at_moment moment (reached beginning entries)).objects (open_lines (reached beginning entries).bans) }
{}

/// In a history that is legal from a sound state an object that is given, as a hit or in grace, was there at each ban on objects alone that was
/// issued behind its insertion, and the ban didn't match it then.
pub fn given_objects_were_spared()
    ensures { (beginning : Beginning) (before between behind : List HistoryEntry) (ban entry : HistoryEntry) (words : BanWords) (view : View) → IsSound beginning.base
        → Legal beginning (before ++ ban ∷ (between ++ entry ∷ behind)) → ban.call ≡ BanCall words → object_only words ≡ true
        → WasStored view.number before → given entry.reply ≡ Some view
        → WasSpared (reached beginning before) ban words view.number }
{}

/// In a history that is legal from a sound state take a ban that isn't on objects alone, and behind it a lookup that is given an object. Where that
/// object, or one whose place it took, was stored before the ban, the ban doesn't match it with the lookup's own request, or
/// an earlier lookup tested it, or one whose place it took, on the ban, which didn't match then.
pub fn given_objects_were_tested()
    ensures { (beginning : Beginning) (before between behind : List HistoryEntry) (ban entry : HistoryEntry) (words : BanWords) (query : Sought) (view : View) (number : ℕ) → IsSound beginning.base
        → Legal beginning (before ++ ban ∷ (between ++ entry ∷ behind)) → ban.call ≡ BanCall words → object_only words ≡ false
        → WasStored number before → has_number (heirs (number ∷ []) between) view.number ≡ true
        → entry.call ≡ Lookup query → given entry.reply ≡ Some view
        → (meets view.object query.request (issued_in (reached beginning before) ban words) ≡ false)
        ⊎ WasTested beginning.params (reached beginning (before ++ ban ∷ [])) (number ∷ []) (issued_in (reached beginning before) ban words) between }
{}
