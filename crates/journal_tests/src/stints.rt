// A run of a few stints over the plain cache: only the last makes a call.
ghost use Rattle.std.specs.Prelude.{◌≡◌, [], ⊤};
ghost use Rattle.cache_law.specs.Bases.{IsBase, IsClosed};
ghost use Rattle.cache_law.specs.History.{Legal, reached};

use crate::worked::{PARAMS, boot};
use cache_law::{CacheCore, Call};
use flat_core::FlatCore;
use journal_run::{Next, Stint, keep_journal};
use journal_writer::write_first;
use std::alloc::{AllocError, Global};
use std::sync::Wait;
use wire::FailingSink;

// So many more stints are to be done.
#[derive(Drop)]
struct Counted {
    more: usize,
}

impl<R, C: CacheCore> Stint<R, C> for Counted {
    ghost Ready = { λ _. ⊤ };

    ghost IsOver = { λ counted. counted.more ≡ 0 };

    ghost Does = { λ _ _ _ _. ⊤ };

    fn work(&mut self, _rt: &R, alloc: Global, core: C, from: u64) -> (C, Next)
        requires empty { C.history core ≡ [] }
        requires base { IsBase (C.beginning core).base }
        requires legal { Legal (C.beginning core) [] }
        ensures over { result.1 ≡ Next.Over → self.new.more ≡ 0 }
        ensures legal { Legal (C.beginning core) (C.history result.0) }
        ensures closed { result.1 ≡ Next.Segment → IsClosed (reached (C.beginning core) (C.history result.0)) }
        ensures same { C.beginning result.0 ≡ C.beginning core }
    {
        let mut core = core;
        if self.more > 0 {
            self.more -= 1;
            return (core, Next::Segment);
        }
        let _ = core.step(alloc, 1, from, Call::VclList);
        (core, Next::Over)
    }
}

/// The journal behind its first line, of so many stints and one more, with `|` for the ends of lines, as far as the sink takes it,
/// which fails at these calls; in front of it how many entries the last segment has.
pub fn said<R: Wait>(
    rt: &R,
    alloc: Global,
    more: usize,
    failing: Vec<u64>,
) -> Result<String, AllocError> {
    let boot = boot(alloc)?;
    let mut sink = FailingSink::new(alloc, failing, 100);
    if write_first(alloc, &mut sink, &PARAMS, &boot).is_err() {
        return String::from_str(alloc, "no first line");
    }
    let first = sink.bytes().len();
    let core = FlatCore::make(alloc, &PARAMS, boot)?;
    let mut stint = Counted { more };
    let ending = keep_journal(rt, alloc, core, 0, &mut stint, &mut sink);
    let mut said = format!(in alloc; "{} ", ending.history.as_slice().len())?;
    if let Some(error) = ending.unwritten {
        write!(said, "{error} behind ")?;
    }
    let written = sink.bytes().get(first..).unwrap_or_default();
    for line in String::from_utf8_lossy(alloc, written)?.lines() {
        write!(said, "{line}|")?;
    }
    Ok(said)
}
