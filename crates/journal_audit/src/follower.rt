// What follows the history of a journal.
ghost use Rattle.std.specs.Prelude.{ℕ, IfOk};
ghost use Rattle.cache_law.specs.declared.setting.Params.{Params as Limits};
ghost use Rattle.cache_law.specs.Beginning.{base_of};
ghost use Rattle.cache_law.specs.State.{State};
ghost use Rattle.audit_laws.specs.Steps.{params_of};
ghost use Rattle.journal_audit.specs.Following.{EndsCut, EndsEntry};

use crate::Fault;
use audit_laws::Kind;
use journal_text::{First, Said};
use std::alloc::{AllocError, Global};

/// It follows the history of a journal, entry by entry. Each error means that memory was wanting.
pub trait Follower: Sized + Drop {
    /// The journal stands within at this state, with so many bytes in the segment.
    ghost stands: { Self → Limits → State → ℕ → Type 0 };

    /// The history under a first line.
    fn start(alloc: Global, first: First) -> Result<Self, AllocError>
        ensures { IfOk result (λ next. stands next (params_of first) (base_of first.boot) 0) };

    /// Goes on with what an entry says, or tells the least kind of what is wrong with it, and what was expected.
    fn enter(self, alloc: Global, said: Said) -> Result<Result<Self, Fault>, AllocError>
        ensures { (params : Limits) (state : State) (used : ℕ) → stands self params state used → IfOk result (EndsEntry stands params state used said) };

    /// Ends a segment, or says that something is open.
    fn cut(self, alloc: Global) -> Result<Result<Self, Kind>, AllocError>
        ensures { (params : Limits) (state : State) (used : ℕ) → stands self params state used → IfOk result (EndsCut stands params state) };
}
