// Laws of sessions and their faults.
ghost use Rattle.std.specs.Prelude.{◌≡◌, ◌≢◌, ◌≤◌, ◌+◌, ◌++◌, ◌↔◌, ℕ, List, codes, length};
ghost use Rattle.session_text.specs.declared.session.Session.{Session as TheSession};
ghost use Rattle.session_text.specs.declared.session.FaultKind.{FaultKind as Kind};
ghost use Rattle.session_text.specs.declared.session.FaultKind.TheVariants.{NoEnd};
ghost use Rattle.session_text.specs.Sessions.{IsSession, IsFault, session_limit};
ghost use Rattle.session_text.specs.Going.{HasWholeLines, StopsAt};

/// A text is one session, or it has one fault, and not both.
pub fn one_meaning(text: &[u8])
    ensures one_session { (s t : TheSession) → IsSession text.now s → IsSession text.now t → s ≡ t }
    ensures one_fault { (x y : ℕ) (a b : Kind) → IsFault text.now x a → IsFault text.now y b → (x ≡ y) × (a ≡ b) }
    ensures not_both { (s : TheSession) (x : ℕ) (a : Kind) → IsSession text.now s → IsFault text.now x a → ⊥ }
    // Up to the line of a fault some session begins as the text does, and behind it none.
    ensures stops { (x : ℕ) (a : Kind) → a ≢ NoEnd → IsFault text.now x a → StopsAt text.now x }
    // `end` is wanting exactly where a session stands with it.
    ensures no_end { (x : ℕ) → HasWholeLines text.now → length text.now + 3 ≤ session_limit
        → IsFault text.now x NoEnd ↔ ((s : TheSession) × IsSession (text.now ++ codes "end") s × (s.end ≡ x)) }
    ensures not_neither { ((s : TheSession) → IsSession text.now s → ⊥) → ((x : ℕ) (a : Kind) → IsFault text.now x a → ⊥) → ⊥ }
{}
