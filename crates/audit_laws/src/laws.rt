// Laws of journals, as contracts of functions that do nothing.
ghost use Rattle.std.specs.Prelude.{◌≡◌, ◌++◌, ℕ, List};
ghost use Rattle.audit_laws.specs.declared.kind.Kind.{Kind as FaultKind};
ghost use Rattle.audit_laws.specs.Steps.{AreWritable, Before, Closed, MaySteps, Step, lines_for, placed, text_for};
ghost use Rattle.audit_laws.specs.Journals.{IsLawful, Journal, Reads, lines_in, steps_in};
ghost use Rattle.audit_laws.specs.Faults.{BadAt};
ghost use Rattle.audit_laws.specs.Findings.{IsLegal, StopsAt};

/// The lines of a journal are those of its steps. The steps of a lawful one may be taken one behind another, to its end.
pub fn journals_are_steps()
    ensures lines { (journal : Journal) → lines_for (steps_in journal) ≡ lines_in journal }
    ensures lawful { (journal : Journal) → IsLawful journal → MaySteps Before (steps_in journal) × (placed Before (steps_in journal) ≡ Closed) }
{}

/// Steps that may be taken to the end are those of a lawful journal.
pub fn steps_are_journals()
    ensures { (steps : List Step) → MaySteps Before steps → placed Before steps ≡ Closed → (journal : Journal) × IsLawful journal × (steps_in journal ≡ steps) }
{}

/// Of steps that may be taken, those whose text begins with that of others begin with these.
pub fn steps_are_cut()
    ensures { (steps others : List Step) (tail : List ℕ) → MaySteps Before steps → MaySteps Before others → AreWritable steps → AreWritable others
        → text_for others ≡ text_for steps ++ tail → (rest : List Step) × (others ≡ steps ++ rest) × (tail ≡ text_for rest) }
{}

/// Bytes are one journal of a lawful history at most.
pub fn one_journal()
    ensures { (bytes : List ℕ) (some other : Journal) → Reads bytes some → IsLawful some → Reads bytes other → IsLawful other → some ≡ other }
{}

/// Bytes are bad at one line at most, for one kind.
pub fn one_fault()
    ensures { (bytes : List ℕ) (number place : ℕ) (some other : FaultKind) → BadAt bytes number some → BadAt bytes place other → (number ≡ place) × (some ≡ other) }
{}

/// Bytes that are bad at a line are no journal of a lawful history.
pub fn never_both()
    ensures { (bytes : List ℕ) (number entries segments : ℕ) (kind : FaultKind) → BadAt bytes number kind → IsLegal bytes entries segments → ⊥ }
{}

/// Up to the line at which bytes are bad some lawful journal begins with them, and with that line none does.
pub fn stops()
    ensures { (bytes : List ℕ) (number : ℕ) (kind : FaultKind) → BadAt bytes number kind → StopsAt bytes number }
{}
