// A run from its first segment to its last.
ghost use Rattle.std.specs.Prelude.{◌≡◌, ◌≤◌, [], IfErr, IfOk, List, None, OnOk, Some};
ghost use Rattle.std.specs.Io.KnownBytes.{Appends};
ghost use Rattle.cache_law.specs.declared.call.Entry.{Entry as HistoryEntry};
ghost use Rattle.cache_law.specs.Bases.{IsBase};
ghost use Rattle.cache_law.specs.History.{Legal};
ghost use Rattle.wire.specs.Causes.{Rose};
ghost use Rattle.journal_writer.specs.Segments.{segment_text};
ghost use Rattle.journal_writer.specs.declared.closing.Closing.TheVariants.{Cut as Further};
ghost use Rattle.journal_run.specs.Gains.{Closes, Gains};
ghost use Rattle.journal_run.specs.Spans.{HasRun, IsCutOff, IsLast};

use crate::cutting::{close, cut};
use crate::{Ending, Next, Stint};
use cache_law::{CacheCore, reopened_is_legal, segments_go_on};
use journal_writer::JournalError;
use std::alloc::Global;
use std::sync::Wait;
use wire::Sink;

// A cache without an entry, and how many entries of the run were made before.
#[derive(Drop)]
struct Opened<C> {
    core: C,
    from: u64,
}

// One stint. Its segment is closed in the journal, and the cache reopened behind it, or it is the last.
fn go_on<R, C: CacheCore + Drop, W: Stint<R, C>, K: Sink>(
    rt: &R,
    alloc: Global,
    opened: Opened<C>,
    stint: &mut W,
    sink: &mut K,
) -> Result<Opened<C>, Ending>
    requires ready { W.Ready stint.old }
    requires empty { C.history opened.core ≡ [] }
    requires base { IsBase (C.beginning opened.core).base }
    requires legal { Legal (C.beginning opened.core) [] }
    requires from { opened.from ≡ (C.beginning opened.core).base.entries }
    ensures ready { OnOk result (W.Ready stint.new) }
    ensures cut { IfOk result (λ further. (segment : List HistoryEntry) × IsCutOff W.Does (C.beginning opened.core) stint.old stint.new segment (C.beginning further.core).base
        × Appends (K.held sink.old) (K.held sink.new) (segment_text segment Further)) }
    ensures params { IfOk result (λ further. (C.beginning further.core).params ≡ (C.beginning opened.core).params) }
    ensures empty { IfOk result (λ further. C.history further.core ≡ []) }
    ensures base { IfOk result (λ further. IsBase (C.beginning further.core).base) }
    ensures legal { IfOk result (λ further. Legal (C.beginning further.core) []) }
    ensures from { IfOk result (λ further. further.from ≡ (C.beginning further.core).base.entries) }
    ensures over { IfErr result (λ ending. ending.unwritten ≡ None → W.IsOver stint.new) }
    ensures last { IfErr result (λ ending. IsLast W.Does (C.beginning opened.core) stint.old stint.new ending.history × Closes (K.held sink.old) (K.held sink.new) ending.history ending.unwritten) }
    ensures later { K.faults sink.old ≤ K.faults sink.new }
    ensures failed { IfErr result (λ ending. ending.unwritten ≡ Some JournalError.WriteFault → Rose (K.faults sink.old) (K.faults sink.new)) }
{
    let Opened { core, from } = opened;
    let (core, next) = stint.work(rt, alloc, core, from);
    reopened_is_legal();
    match next {
        Next::Over => Err(close(alloc, core.into_history(), sink)),
        Next::Segment => match cut(alloc, core, sink) {
            Ok(reopened) => Ok(Opened {
                core: reopened.core,
                from: from + reopened.count as u64,
            }),
            Err(ending) => Err(ending),
        },
    }
}

/// Has a stint done over the cache for each segment of the history, and writes each, until all is done, or a segment can't be written,
/// or there is no memory to go on. The journal's first line stands before it. `from` is how many entries of the run were made before.
/// The call may wait for good.
pub fn keep_journal<R: Wait, C: CacheCore + Drop, W: Stint<R, C>, K: Sink>(
    rt: &R,
    alloc: Global,
    core: C,
    from: u64,
    stint: &mut W,
    sink: &mut K,
) -> Ending
    requires ready { W.Ready stint.old }
    requires empty { C.history core ≡ [] }
    requires base { IsBase (C.beginning core).base }
    requires legal { Legal (C.beginning core) [] }
    requires from { from ≡ (C.beginning core).base.entries }
    ensures ran { (segments : List (List HistoryEntry)) × HasRun W.Does (C.beginning core).params (C.beginning core).base stint.old stint.new segments result.history
        × Gains (K.held sink.old) (K.held sink.new) segments result.history result.unwritten }
    ensures over { result.unwritten ≡ None → W.IsOver stint.new }
    ensures later { K.faults sink.old ≤ K.faults sink.new }
    ensures failed { result.unwritten ≡ Some JournalError.WriteFault → Rose (K.faults sink.old) (K.faults sink.new) }
{
    segments_go_on();
    let mut opened = Opened { core, from };
    'segments: for _ in rt.forever() {
        match go_on(rt, alloc, opened, stint, sink) {
            Ok(further) => opened = further,
            Err(ending) => return ending,
        }
    }
    unreachable!()
}
