// Calls, and for each subroutine what it calls.
ghost use Rattle.std.specs.Prelude.{◌≡◌, [], IfOk};
ghost use Rattle.vcl_symbols.specs.Calls.{AreWithin};
ghost use Rattle.vcl_symbols.specs.Visits.{AreRows};

use std::alloc::{AllocError, Global};
use units::Sequence;

/// A call of one subroutine by another, both by their numbers, and its place in the text.
#[derive(Clone, Copy, Debug, PartialEq, Eq)]
pub struct Call {
    pub from: usize,
    pub to: usize,
    pub place: u32,
}

/// The calls between `count` subroutines.
#[derive(Drop)]
pub struct CallGraph {
    pub count: usize,
    pub calls: Sequence<Call>,
    pub(crate) rows: Vec<Sequence<usize>>,
    ghost within: { AreWithin count calls },
    ghost rows_are: { AreRows rows.items calls count },
}

impl CallGraph {
    /// The graph of these calls. It takes time linear in the subroutines and the calls.
    pub fn of(alloc: Global, count: usize, calls: Vec<Call>) -> Result<CallGraph, AllocError>
        requires { AreWithin count calls.items }
        ensures count { IfOk result (λ graph. graph.count ≡ count) }
        ensures calls { IfOk result (λ graph. graph.calls ≡ calls.items) }
    {
        let rows = rows_of(alloc, count, calls.as_slice())?;
        Ok(CallGraph {
            count,
            calls: Sequence::from_vec(calls),
            rows,
        })
    }

    // What a subroutine calls by its call of this number.
    pub(crate) fn callee(&self, subroutine: usize, number: usize) -> Option<usize> {
        let row = self.rows.get(subroutine)?;
        row.as_slice().get(number).copied()
    }
}

// What each subroutine calls.
fn rows_of(alloc: Global, count: usize, calls: &[Call]) -> Result<Vec<Sequence<usize>>, AllocError>
    requires { AreWithin count calls.now }
    ensures { IfOk result (λ rows. AreRows rows.items calls.now count) }
{
    let mut rows = empty_rows(alloc, count)?;
    for call in calls {
        rows[call.from].push(call.to)?;
    }
    Ok(rows)
}

fn empty_rows(alloc: Global, count: usize) -> Result<Vec<Sequence<usize>>, AllocError>
    ensures { IfOk result (λ rows. AreRows rows.items [] count) }
{
    let mut rows = Vec::new(alloc);
    for _ in 0..count {
        rows.push(Sequence::new(alloc))?;
    }
    Ok(rows)
}
