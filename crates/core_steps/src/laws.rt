// Laws of steps, as contracts of functions that do nothing.
ghost use Rattle.std.specs.Prelude.{◌≡◌, List};
ghost use Rattle.cache_law.specs.declared.call.Entry.{Entry as HistoryEntry};
ghost use Rattle.cache_law.specs.Beginning.{Beginning};
ghost use Rattle.cache_law.specs.History.{Legal};
ghost use Rattle.core_steps.specs.declared.step.CoreStep.{CoreStep as Step};
ghost use Rattle.core_steps.specs.Steps.{AllBound, Grows, erased};

/// What steps lead to, their calls alone lead to.
pub fn lurkers_leave_no_trace()
    ensures { (beginning : Beginning) (old new : List HistoryEntry) (steps : List Step) → Grows beginning old steps new → Grows beginning old (erased steps) new }
{}

/// Steps with the same calls lead to one history, whatever the lurker did between them and whatever the caches are, where the law
/// leaves each entry one answer.
pub fn calls_have_one_history()
    ensures { (beginning : Beginning) (old new other : List HistoryEntry) (steps others : List Step) → erased others ≡ erased steps
        → Grows beginning old steps new → Grows beginning old others other → AllBound new → AllBound other → other ≡ new }
{}

/// Steps lead from a legal history to a legal one.
pub fn steps_stay_legal()
    ensures { (beginning : Beginning) (old new : List HistoryEntry) (steps : List Step) → Legal beginning old → Grows beginning old steps new → Legal beginning new }
{}
