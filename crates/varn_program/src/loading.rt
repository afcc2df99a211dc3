// A load: the session of a number that is played into memory, and its summary.
ghost use Rattle.std.specs.Prelude.{◌≡◌};
ghost use Rattle.vcl_library.specs.Functions.{std_functions};
ghost use Rattle.varn_program.specs.Load.{IsLoaded, Loads, Reports, TellsAs, usual_limits};
ghost use Rattle.wire.specs.Causes.{Rose};

use crate::outcome::{Outcome, Status};
use crate::playing::{play, read_session, stopped};
use ban_lurker::LurkCore;
use cache_law::Params;
use load_summary::{Summary, summarize, summary_text};
use session_text::generate;
use std::alloc::Global;
use units::Shared;
use vmod_host::VmodTable;
use wire::{FailingSink, Sink, write_all};

// The limits of a load.
fn usual_limits() -> Params
    ensures { result ≡ usual_limits }
{
    Params {
        room: Params::DEFAULT_ROOM,
        history: Params::DEFAULT_HISTORY,
        segments: false,
    }
}

// Writes a summary.
fn report<K: Sink>(alloc: Global, summary: &Summary, sink: &mut K) -> Status
    ensures { Reports (K.held sink.old) (K.held sink.new) (Rose (K.faults sink.old) (K.faults sink.new)) summary.now result }
{
    match summary_text(alloc, summary) {
        Ok(text) => match write_all(sink, text.as_slice()) {
            Ok(()) => Status::Done,
            Err(_) => Status::WriteFault,
        },
        Err(_) => Status::NoMemory,
    }
}

// How a load ends that was played so: of one that is whole, the summary is written.
fn tell<K: Sink>(
    alloc: Global,
    steps: u32,
    transcript: &[u8],
    played: &Outcome,
    sink: &mut K,
) -> Status
    ensures { TellsAs steps (K.held sink.old) (K.held sink.new) (Rose (K.faults sink.old) (K.faults sink.new)) transcript.now played.now played.now.status result }
{
    match played.status {
        Status::Done => {
            let history = played.history.as_slice();
            let summary = summarize(steps, history, played.swept.as_slice(), transcript);
            report(alloc, &summary, sink)
        }
        // The sink in memory fails only where memory is wanting.
        Status::WriteFault => Status::NoMemory,
        other => other,
    }
}

/// Plays the session of a number with so many steps over a cache of this kind, keeps its transcript in memory, and writes its
/// summary to the sink.
pub fn load<C: LurkCore + Drop, K: Sink>(
    alloc: Global,
    seed: u32,
    steps: u32,
    vmods: &Shared<VmodTable>,
    sink: &mut K,
) -> Outcome
    requires functions { vmods.now.stored ≡ std_functions }
    ensures loads { Loads vmods.now.stored seed steps (K.held sink.old) (K.held sink.new) result }
    ensures complete { IsLoaded vmods.now.stored seed steps (Rose (K.faults sink.old) (K.faults sink.new)) result }
    ensures write_fault { result.status ≡ Status.WriteFault → Rose (K.faults sink.old) (K.faults sink.new) }
{
    let text = match generate(alloc, seed, steps) {
        Ok(text) => text,
        Err(_) => return stopped(alloc, Status::NoMemory, None),
    };
    let session = match read_session(alloc, text.bytes()) {
        Ok(session) => session,
        Err(outcome) => return outcome,
    };
    drop(text);
    let mut kept = FailingSink::new(alloc, Vec::new(alloc), usize::MAX);
    let mut played = play::<C, FailingSink>(alloc, &usual_limits(), vmods, session, &mut kept);
    played.status = tell(alloc, steps, kept.bytes(), &played, sink);
    played
}
