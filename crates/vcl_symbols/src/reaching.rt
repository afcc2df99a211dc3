// The subroutines that calls lead to from one of them.
ghost use Rattle.std.specs.Prelude.{◌≡◌, ◌<◌, ◌↔◌, ℕ, length, IfOk, OnOk};
ghost use Rattle.vcl_symbols.specs.Calls.{Reaches, Marked};
ghost use Rattle.vcl_symbols.specs.Visits.{Among, Visited};

use crate::call_graph::CallGraph;
use std::alloc::{AllocError, Global};

impl CallGraph {
    /// A mark for each subroutine: whether calls lead to it from this one, as none does from one to itself. It
    /// takes time linear in the subroutines and the calls.
    pub fn reached(&self, alloc: Global, from: usize) -> Result<Vec<bool>, AllocError>
        requires { from < self.now.count }
        ensures each { IfOk result (λ marks. length marks.items ≡ self.now.count) }
        ensures marked { IfOk result (λ marks. (v : ℕ) → Marked marks.items v ↔ Reaches self.now.calls from v) }
    {
        let mut marks = vec![in alloc; false; self.count]?;
        let mut waiting = Vec::new(alloc);
        marks[from] = true;
        waiting.push(from)?;
        while let Some(next) = waiting.pop() {
            let row = self.rows[next].as_slice();
            visit(row, &mut marks, &mut waiting)?;
        }
        Ok(marks)
    }
}

// Marks each of a row; those that are marked newly wait.
fn visit(row: &[usize], marks: &mut Vec<bool>, waiting: &mut Vec<usize>) -> Result<(), AllocError>
    requires { (v : ℕ) → Among row.now v → v < length marks.old.items }
    ensures { OnOk result (Visited row.now marks.old.items waiting.old.items marks.new.items waiting.new.items) }
{
    for callee in row {
        if !marks[*callee] {
            marks[*callee] = true;
            waiting.push(*callee)?;
        }
    }
    Ok(())
}
