// What the texts of journals determine.
ghost use Rattle.std.specs.Prelude.{◌≡◌, [], ℕ, List};
ghost use Rattle.cache_law.specs.declared.call.Entry.{Entry as HistoryEntry};
ghost use Rattle.cache_law.specs.declared.setting.Params.{Params as Limits};
ghost use Rattle.cache_law.specs.Bases.{IsSound};
ghost use Rattle.cache_law.specs.History.{FollowAll};
ghost use Rattle.cache_law.specs.State.{State};
ghost use Rattle.journal_text.specs.Journals.{entries_before, lines_text};
ghost use Rattle.journal_reader.specs.declared.fault.Refusal.{Refusal as Told};
ghost use Rattle.journal_reader.specs.Histories.{AreLines};
ghost use Rattle.journal_reader.specs.Refusals.{IsRefusal};

/// A text is refused for one fault at one column.
pub fn one_refusal()
    ensures { (text : List ℕ) (some other : Told) → IsRefusal text some → IsRefusal text other → some ≡ other }
{}

/// A text of entries is one history that the law allows from a sound state, with what the lines don't show of its replies.
pub fn one_lawful_history()
    ensures { (params : Limits) (state : State) (some others : List HistoryEntry) → IsSound state
        → FollowAll params state some → FollowAll params state others
        → AreLines (entries_before [] some) → AreLines (entries_before [] others)
        → lines_text (entries_before [] some) ≡ lines_text (entries_before [] others) → some ≡ others }
{}
