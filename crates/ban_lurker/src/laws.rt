// Laws of chores and verdicts, as contracts of functions that do nothing.
ghost use Rattle.std.specs.Prelude.{◌++◌, List};
ghost use Rattle.cache_law.specs.declared.call.Entry.{Entry as HistoryEntry};
ghost use Rattle.cache_law.specs.Beginning.{Beginning};
ghost use Rattle.ban_lurker.specs.declared.chore.Chore.{Chore as Work};
ghost use Rattle.ban_lurker.specs.declared.chore.Verdict.{Verdict as Finding};
ghost use Rattle.ban_lurker.specs.Verdicts.{IsChoreOf, IsVerdictOf, judged};

/// What is found of a history's chore is a verdict of the history.
pub fn chores_give_verdicts()
    ensures { (beginning : Beginning) (entries : List HistoryEntry) (chore : Work) → IsChoreOf beginning entries chore
        → IsVerdictOf beginning entries (judged chore) }
{}

/// A verdict of a history is one of the history with any entries behind it.
pub fn verdicts_stay()
    ensures { (beginning : Beginning) (entries more : List HistoryEntry) (verdict : Finding) → IsVerdictOf beginning entries verdict
        → IsVerdictOf beginning (entries ++ more) verdict }
{}
