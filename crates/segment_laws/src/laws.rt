// A run, by its stints.
ghost use Rattle.std.specs.Prelude.{List};
ghost use Rattle.cache_law.specs.declared.call.Entry.{Entry as HistoryEntry};
ghost use Rattle.cache_law.specs.declared.setting.Params.{Params as Limits};
ghost use Rattle.cache_law.specs.State.{State};
ghost use Rattle.journal_run.specs.Spans.{HasRun};
ghost use Rattle.segment_laws.specs.Lives.{HaveWorked, IsOneRun, Stand};

use crate::Callers;

/// A run of stints, in each of which all callers do their part, is one run of these callers.
pub fn stints_are_one_run<P: Callers>()
    ensures { (params : Limits) (begun : State) (olds news : List (Stand P.Keeper P.Talk)) (segments : List (List HistoryEntry)) (last : List HistoryEntry)
        → HasRun (HaveWorked P.Tells P.places_in P.Waits P.Steps P.Holds) params begun olds news segments last
        → IsOneRun P.Tells P.places_in P.Waits P.Steps P.Holds params begun olds news segments last }
{}
