// The audit of a journal's text.
ghost use Rattle.std.specs.Prelude.{IfOk};
ghost use Rattle.journal_audit.specs.Feeding.{IsFinding};

use crate::Following;
use journal_audit::{Auditor, Finding};
use std::alloc::{AllocError, Global};

/// It is fed the text of a journal in pieces.
pub type HistoryAuditor = Auditor<Following>;

/// What a text is as a journal: that of a lawful history, with the numbers of its entries and its segments, or bad at its line for the
/// least kind of fault. An error means that memory was wanting.
pub fn audit(alloc: Global, bytes: &[u8]) -> Result<Finding, AllocError>
    ensures { IfOk result (IsFinding bytes.now) }
{
    journal_audit::audit::<Following>(alloc, bytes)
}
