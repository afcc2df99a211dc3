// How a segment is closed.
ghost use Rattle.std.specs.Prelude.{◌≡◌, ◌≤◌, [], IfErr, IfOk, IsSome, OnErr, OnOk, Some, length};
ghost use Rattle.std.specs.Io.KnownBytes.{Appends};
ghost use Rattle.cache_law.specs.Bases.{AreAlike, IsBase, IsClosed};
ghost use Rattle.cache_law.specs.History.{reached};
ghost use Rattle.wire.specs.Causes.{Rose};
ghost use Rattle.journal_writer.specs.Segments.{segment_text};
ghost use Rattle.journal_writer.specs.declared.closing.Closing.TheVariants.{Cut as Further};
ghost use Rattle.journal_run.specs.Gains.{Closes, StopsIn};

use crate::Ending;
use cache_law::{CacheCore, Entry};
use journal_writer::{Closing, JournalError, write_segment};
use std::alloc::Global;
use units::Sequence;
use wire::Sink;

/// Closes the last segment.
pub(crate) fn close<K: Sink>(alloc: Global, history: Sequence<Entry>, sink: &mut K) -> Ending
    ensures history { result.history ≡ history }
    ensures closes { Closes (K.held sink.old) (K.held sink.new) history result.unwritten }
    ensures later { K.faults sink.old ≤ K.faults sink.new }
    ensures failed { result.unwritten ≡ Some JournalError.WriteFault → Rose (K.faults sink.old) (K.faults sink.new) }
{
    let unwritten = write_segment(alloc, sink, history.as_slice(), Closing::Close).err();
    Ending { history, unwritten }
}

// Closes a segment behind which there is no memory to go on.
fn give_up<K: Sink>(alloc: Global, history: Sequence<Entry>, sink: &mut K) -> Ending
    ensures history { result.history ≡ history }
    ensures stops { StopsIn (K.held sink.old) (K.held sink.new) history }
    ensures wanting { IsSome result.unwritten }
    ensures later { K.faults sink.old ≤ K.faults sink.new }
    ensures failed { result.unwritten ≡ Some JournalError.WriteFault → Rose (K.faults sink.old) (K.faults sink.new) }
{
    let Ending { history, unwritten } = close(alloc, history, sink);
    Ending {
        history,
        unwritten: Some(unwritten.unwrap_or(JournalError::NoMemory)),
    }
}

/// A cache that was reopened, and how many entries the segment before had.
#[derive(Drop)]
pub(crate) struct Reopened<C> {
    pub core: C,
    pub count: usize,
}

/// Reopens a cache behind a segment, which is closed in the journal. Otherwise no more is to be done, and that segment is the last.
pub(crate) fn cut<C: CacheCore + Drop, K: Sink>(
    alloc: Global,
    core: C,
    sink: &mut K,
) -> Result<Reopened<C>, Ending>
    requires closed { IsClosed (reached (C.beginning core) (C.history core)) }
    ensures written { OnOk result (Appends (K.held sink.old) (K.held sink.new) (segment_text (C.history core) Further)) }
    ensures empty { IfOk result (λ reopened. C.history reopened.core ≡ []) }
    ensures params { IfOk result (λ reopened. (C.beginning reopened.core).params ≡ (C.beginning core).params) }
    ensures base { IfOk result (λ reopened. IsBase (C.beginning reopened.core).base) }
    ensures alike { IfOk result (λ reopened. AreAlike (C.beginning reopened.core).base (reached (C.beginning core) (C.history core))) }
    ensures count { IfOk result (λ reopened. reopened.count ≡ length (C.history core)) }
    ensures history { IfErr result (λ ending. ending.history ≡ C.history core) }
    ensures stops { OnErr result (StopsIn (K.held sink.old) (K.held sink.new) (C.history core)) }
    ensures unwritten { IfErr result (λ ending. IsSome ending.unwritten) }
    ensures later { K.faults sink.old ≤ K.faults sink.new }
    ensures failed { IfErr result (λ ending. ending.unwritten ≡ Some JournalError.WriteFault → Rose (K.faults sink.old) (K.faults sink.new)) }
{
    match core.reopen(alloc) {
        Ok((history, core)) => {
            match write_segment(alloc, sink, history.as_slice(), Closing::Cut) {
                Ok(()) => Ok(Reopened {
                    core,
                    count: history.as_slice().len(),
                }),
                Err(error) => Err(Ending {
                    history,
                    unwritten: Some(error),
                }),
            }
        }
        Err(kept) => Err(give_up(alloc, kept.core.into_history(), sink)),
    }
}
