//! Laws of what is left open by the calls of a history.
//!
//! Contract for the layers above: where no caller of an entry has an open round behind all entries, nothing is open there
//! (`nothing_is_open_where_all_are_idle`). So a segment ends where each of its callers has ended its round.
#![tactic(auto)]

ghost use Rattle.std.specs.Prelude.{◌≡◌, List, ℕ, false, true};
ghost use Rattle.std.specs.List.{AllByRecursion};
ghost use Rattle.cache_law.specs.declared.call.Entry.{Entry as HistoryEntry};
ghost use Rattle.cache_law.specs.declared.setting.Params.{Params as Limits};
ghost use Rattle.cache_law.specs.State.{State, has_round};
ghost use Rattle.cache_law.specs.History.{reached_from};
ghost use Rattle.cache_law.specs.Bases.{IsClosed};
ghost use Rattle.idle_laws.specs.Idle.{AllIdle, HaveRounds};

/// Each open fetch is one of a caller with an open round, whatever entries come.
pub fn fetches_are_of_open_rounds()
    ensures { (params : Limits) (state : State) (entries : List HistoryEntry) → HaveRounds state → HaveRounds (reached_from params state entries) }
{}

/// From a state in which nothing is open, entries leave nothing open where none of their callers has an open round behind them.
pub fn nothing_is_open_where_all_are_idle()
    ensures { (params : Limits) (state : State) (entries : List HistoryEntry) → IsClosed state → AllIdle (reached_from params state entries) entries
        → IsClosed (reached_from params state entries) }
{}
