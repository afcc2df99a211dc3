// The first call on a circle.
ghost use Rattle.std.specs.Prelude.{◌≡◌, ◌<◌, ◌↔◌, IsTrue, IfOk, slice_index};
ghost use Rattle.vcl_symbols.specs.Calls.{Reaches};
ghost use Rattle.vcl_symbols.specs.Circles.{OnCircleAt, IsLeastPlace, IsBefore, NoneRises};

use crate::call_graph::{Call, CallGraph};
use crate::components::component_numbers;
use std::alloc::{AllocError, Global};

impl CallGraph {
    /// The least place of a call on a circle: one that calls a subroutine from which calls lead back to the
    /// caller. It takes time linear in the subroutines and the calls where the calls are given in the order
    /// of their places.
    pub fn first_on_circle(&self, alloc: Global) -> Result<Option<u32>, AllocError>
        ensures { IfOk result (IsLeastPlace (OnCircleAt self.now.calls)) }
    {
        let heights = component_numbers(alloc, self)?;
        self.first_by_heights(alloc, heights.as_slice())
    }

    // With any heights the answer is right; with good ones little is searched.
    fn first_by_heights(&self, alloc: Global, heights: &[usize]) -> Result<Option<u32>, AllocError>
        ensures { IfOk result (IsLeastPlace (OnCircleAt self.now.calls)) }
    {
        let none_rises = never_rises(heights, self.calls.as_slice());
        let mut first = None;
        for call in self.calls.as_slice() {
            if is_before(call.place, first)
                && self.is_on_circle(alloc, heights, none_rises, call)?
            {
                first = Some(call.place);
            }
        }
        Ok(first)
    }

    // Where no call leads to a greater height, one to a lesser is on no circle: nothing is searched for it.
    fn is_on_circle(
        &self,
        alloc: Global,
        heights: &[usize],
        none_rises: bool,
        call: &Call,
    ) -> Result<bool, AllocError>
        requires callee { call.now.to < self.now.count }
        requires none_rises { IsTrue none_rises → NoneRises heights.now self.now.calls }
        ensures { IfOk result (λ circle. IsTrue circle ↔ Reaches self.now.calls call.now.to call.now.from) }
    {
        if none_rises && falls(heights, call) {
            return Ok(false);
        }
        self.leads_back(alloc, call)
    }

    fn leads_back(&self, alloc: Global, call: &Call) -> Result<bool, AllocError>
        requires { call.now.to < self.now.count }
        ensures { IfOk result (λ back. IsTrue back ↔ Reaches self.now.calls call.now.to call.now.from) }
    {
        let marks = self.reached(alloc, call.to)?;
        Ok(marks.get(call.from).copied().unwrap_or(false))
    }
}

fn is_before(place: u32, first: Option<u32>) -> bool
    ensures { IsTrue result ↔ IsBefore place first }
{
    match first {
        None => true,
        Some(other) => place < other,
    }
}

fn never_rises(heights: &[usize], calls: &[Call]) -> bool
    ensures { IsTrue result ↔ NoneRises heights.now calls.now }
{
    calls.iter().all(|call| height_of(heights, call.to) <= height_of(heights, call.from))
}

fn falls(heights: &[usize], call: &Call) -> bool
    ensures { IsTrue result ↔ (slice_index heights.now call.now.to < slice_index heights.now call.now.from) }
{
    height_of(heights, call.to) < height_of(heights, call.from)
}

fn height_of(heights: &[usize], subroutine: usize) -> usize
    ensures { result ≡ slice_index heights.now subroutine }
{
    heights.get(subroutine).copied().unwrap_or(0)
}
