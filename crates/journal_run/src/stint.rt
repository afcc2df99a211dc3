// What is done over a cache while its history is one segment.
ghost use Rattle.std.specs.Prelude.{◌≡◌, [], List};
ghost use Rattle.cache_law.specs.declared.call.Entry.{Entry as HistoryEntry};
ghost use Rattle.cache_law.specs.Bases.{IsBase, IsClosed};
ghost use Rattle.cache_law.specs.Beginning.{Beginning};
ghost use Rattle.cache_law.specs.History.{Legal, reached};

use cache_law::CacheCore;
use std::alloc::Global;

/// What comes behind a stint.
#[derive(Clone, Copy, Debug, PartialEq, Eq)]
pub enum Next {
    /// Another one, over the reopened cache: the segment is full, and nothing is open.
    Segment,
    /// Nothing: all is done.
    Over,
}

/// What is done over a cache, once for each segment of its history. It is there all the while, and knows what it has begun.
pub trait Stint<R, C: CacheCore> {
    /// Another stint may be done.
    ghost Ready: { Self → Type 0 };

    /// All is done.
    ghost IsOver: { Self → Type 0 };

    /// What one stint does, from what stands before it to what stands behind it, over the history of a segment from this beginning.
    ghost Does: { Self → Self → Beginning → List HistoryEntry → Type 0 };

    /// Does one stint over a cache without an entry, behind so many entries of the run. It may wait for good.
    fn work(&mut self, rt: &R, alloc: Global, core: C, from: u64) -> (C, Next)
        requires ready { Ready self.old }
        requires empty { C.history core ≡ [] }
        requires base { IsBase (C.beginning core).base }
        requires legal { Legal (C.beginning core) [] }
        requires from { from ≡ (C.beginning core).base.entries }
        ensures ready { result.1 ≡ Next.Segment → Ready self.new }
        ensures over { result.1 ≡ Next.Over → IsOver self.new }
        ensures does { Does self.old self.new (C.beginning core) (C.history result.0) }
        ensures legal { Legal (C.beginning core) (C.history result.0) }
        ensures closed { result.1 ≡ Next.Segment → IsClosed (reached (C.beginning core) (C.history result.0)) }
        ensures same { C.beginning result.0 ≡ C.beginning core };
}
