// Components of a call graph, numbered so that no call leads to one of a greater number: a depth-first search
// with a stack of its own (Tarjan, "Depth-first search and linear graph algorithms", SIAM Journal on Computing
// 1, 1972). No contract is needed: the search for circles tests the numbers that it is given.
use crate::call_graph::CallGraph;
use std::alloc::{AllocError, Global};

// A subroutine whose calls are being followed, and how many of them were.
#[derive(Clone, Copy)]
struct Visit {
    subroutine: usize,
    followed: usize,
}

// What the search knows of a subroutine: when it was met, the earliest one still open that it is known to lead
// to, and its component once that is whole.
#[derive(Clone, Copy)]
struct Mark {
    met: usize,
    earliest: usize,
    component: Option<usize>,
}

#[derive(Drop)]
struct Search {
    marks: Vec<Option<Mark>>,
    visits: Vec<Visit>,
    open: Vec<usize>,
    met: usize,
    components: usize,
}

/// A number for each subroutine: that of its component, which no call leaves to a greater number.
pub(crate) fn component_numbers(
    alloc: Global,
    graph: &CallGraph,
) -> Result<Vec<usize>, AllocError> {
    let mut search = Search {
        marks: vec![in alloc; None; graph.count]?,
        visits: Vec::new(alloc),
        open: Vec::new(alloc),
        met: 0,
        components: 0,
    };
    for subroutine in 0..graph.count {
        search.search_from(graph, subroutine)?;
    }
    let mut numbers = Vec::new(alloc);
    for mark in &search.marks {
        numbers.push(component_of(*mark).unwrap_or(0))?;
    }
    Ok(numbers)
}

fn component_of(mark: Option<Mark>) -> Option<usize> {
    mark?.component
}

impl Search {
    fn mark(&self, subroutine: usize) -> Option<Mark> {
        self.marks.get(subroutine).copied().flatten()
    }

    // Follows all calls from a subroutine, unless it was met before. A step follows a call or leaves a
    // subroutine, so that there are at most as many as there are of both, and one that finds nothing to do.
    fn search_from(&mut self, graph: &CallGraph, subroutine: usize) -> Result<(), AllocError> {
        if self.mark(subroutine).is_some() {
            return Ok(());
        }
        self.meet(subroutine)?;
        let calls = graph.calls.as_slice().len();
        for _ in 0..=graph.count.saturating_add(calls) {
            if !self.step(graph)? {
                break;
            }
        }
        Ok(())
    }

    fn meet(&mut self, subroutine: usize) -> Result<(), AllocError> {
        let met = self.met;
        self.met = met.wrapping_add(1);
        if let Some(mark) = self.marks.get_mut(subroutine) {
            *mark = Some(Mark {
                met,
                earliest: met,
                component: None,
            });
        }
        self.open.push(subroutine)?;
        self.visits.push(Visit {
            subroutine,
            followed: 0,
        })?;
        Ok(())
    }

    // Follows one call, or leaves a subroutine whose calls have been followed; false where none is visited.
    fn step(&mut self, graph: &CallGraph) -> Result<bool, AllocError> {
        let Some(visit) = self.visits.pop() else {
            return Ok(false);
        };
        match graph.callee(visit.subroutine, visit.followed) {
            None => self.leave(visit.subroutine),
            Some(callee) => {
                self.visits.push(Visit {
                    subroutine: visit.subroutine,
                    followed: visit.followed.wrapping_add(1),
                })?;
                self.follow(visit.subroutine, callee)?;
            }
        }
        Ok(true)
    }

    fn follow(&mut self, caller: usize, callee: usize) -> Result<(), AllocError> {
        match self.mark(callee) {
            None => self.meet(callee),
            Some(mark) => {
                if mark.component.is_none() {
                    self.lower(caller, mark.met);
                }
                Ok(())
            }
        }
    }

    // Notes that a subroutine leads to one that was met at this time and is still open.
    fn lower(&mut self, subroutine: usize, met: usize) {
        if let Some(Some(mark)) = self.marks.get_mut(subroutine) {
            mark.earliest = mark.earliest.min(met);
        }
    }

    // The subroutines that are open from the first of a component on are that component.
    fn leave(&mut self, subroutine: usize) {
        let Some(mark) = self.mark(subroutine) else {
            return;
        };
        if mark.earliest == mark.met {
            self.close(subroutine);
        }
        if let Some(caller) = self.visits.last().copied() {
            self.lower(caller.subroutine, mark.earliest);
        }
    }

    fn close(&mut self, first: usize) {
        let component = self.components;
        self.components = component.wrapping_add(1);
        while let Some(member) = self.open.pop() {
            if let Some(Some(mark)) = self.marks.get_mut(member) {
                mark.component = Some(component);
            }
            if member == first {
                return;
            }
        }
    }
}
