// A whole session.
ghost use Rattle.std.specs.Prelude.{◌≡◌, ◌≤◌, ◌==◌, ◌&&◌, [], length, Some, false};
ghost use Rattle.wire.specs.Causes.{Rose};
ghost use Rattle.vcl_runs.specs.Languages.{language_of};
ghost use Rattle.replay.specs.Plan.{plan_of};
ghost use Rattle.replay.specs.Turns.{Wants};
ghost use Rattle.cache_law.specs.Beginning.{beginning_of};
ghost use Rattle.replay.specs.Build.{HasClients};
ghost use Rattle.replay.specs.Pieces.{UsesSink, pieces};
ghost use Rattle.replay.specs.Swept.{IsSwept, IsSweptBy, lurks, number_of};
ghost use Rattle.replay.specs.Replayed.{IsReplayed, IsWritten, SessionEnds, error_for, is_write_fault, refusal_of};

use crate::event::Script;
use crate::pieces::flush;
use crate::rounds::{Break, Play};
use crate::schedule::{Halt, play_events};
use crate::script::build;
use crate::{Policy, Turn};
use ban_lurker::LurkCore;
use cache_law::{Boot, Entry, Params};
use session_text::Session;
use std::alloc::Global;
use units::Sequence;
use vcl_runs::{Programs, Runner};
use vmod_host::VmodTable;
use wire::Sink;

/// Why a session wasn't played to its end.
#[derive(Clone, Copy, Debug)]
pub enum ReplayError {
    /// At this line a client sends a request while it is under way, or a fetch gets a reply that has no
    /// exchange under way.
    Idle(u32),
    /// At this line, the session's `end`, an exchange is under way.
    Unanswered(u32),
    /// The sink failed.
    WriteFault,
    /// A call doesn't fit the history's limit.
    HistoryFull,
    NoMemory,
}

/// What was played: the history of the cache, and for each `lurk` that was heard at how many objects the lurker looked.
#[derive(Drop)]
pub struct Played {
    pub history: Sequence<Entry>,
    pub swept: Sequence<u32>,
}

/// What was played, and why there is no more of it.
#[derive(Drop)]
pub struct Replayed {
    pub played: Played,
    pub refusal: Option<ReplayError>,
}

fn error_of(halt: Halt) -> ReplayError
    ensures { result ≡ error_for halt }
{
    match halt {
        Halt::Idle(line) => ReplayError::Idle(line),
        Halt::Broken(Break::WriteFault) => ReplayError::WriteFault,
        Halt::Broken(Break::HistoryFull) => ReplayError::HistoryFull,
        Halt::Broken(Break::NoMemory) => ReplayError::NoMemory,
    }
}

/// What ends a session whose events were played so, where rounds still wait or not.
fn refusal(played: Result<(), Halt>, nobody_waits: bool, end: u32) -> Option<ReplayError>
    ensures { result ≡ refusal_of played nobody_waits end }
{
    match played {
        Ok(()) => {
            if nobody_waits {
                None
            } else {
                Some(ReplayError::Unanswered(end))
            }
        }
        Err(halt) => Some(error_of(halt)),
    }
}

/// Whether no client is under way.
fn has_nobody<C, P>(play: &Play<C, P>) -> bool
    ensures { result ≡ (length play.now.waiting.items == 0 && length play.now.parked.items == 0) }
{
    play.waiting.as_slice().is_empty() && play.parked.as_slice().is_empty()
}

fn is_fault(ending: Option<ReplayError>) -> bool
    ensures { result ≡ is_write_fault ending }
{
    matches!(ending, Some(ReplayError::WriteFault))
}

// The ending of a session once all that was kept is written.
fn written<K: Sink>(
    unwritten: &mut Vec<u8>,
    sink: &mut K,
    ending: Option<ReplayError>,
) -> Option<ReplayError>
    ensures written { IsWritten (pieces (K.held sink.old) unwritten.old.items) (K.held sink.new) ending result }
    ensures sink { UsesSink K.faults sink.old sink.new ((is_write_fault ending ≡ false) × (result ≡ Some ReplayError.WriteFault)) }
{
    if is_fault(ending) {
        return ending;
    }
    match flush(unwritten, sink) {
        Ok(()) => ending,
        Err(_) => Some(ReplayError::WriteFault),
    }
}

// A session of which nothing was played.
fn unplayed(alloc: Global) -> Replayed
    ensures { result ≡ record { played = record { history = []; swept = [] }; refusal = Some ReplayError.NoMemory } }
{
    Replayed {
        played: Played {
            history: Sequence::new(alloc),
            swept: Sequence::new(alloc),
        },
        refusal: Some(ReplayError::NoMemory),
    }
}

/// Plays a session over a cache of this kind that keeps no segments, its rounds led by this policy, and writes its transcript.
/// Each event is gone once it is played.
pub fn play_session<C: LurkCore + Drop, P: Policy, K: Sink>(
    alloc: Global,
    script: Script,
    params: &Params,
    boot: Boot,
    context: &mut P::Context,
    sink: &mut K,
) -> Replayed
    requires unsegmented { params.now.segments ≡ false }
    ensures replayed { IsReplayed (plan_of P.wants (beginning_of params.now boot)) script (K.held sink.old) (K.held sink.new) result }
    ensures swept { IsSwept number_of lurks script.events (length result.played.swept) result.refusal }
    ensures later { K.faults sink.old ≤ K.faults sink.new }
    ensures cause { result.refusal ≡ Some ReplayError.WriteFault → Rose (K.faults sink.old) (K.faults sink.new) }
{
    let Script { events, end } = script;
    let core = match C::make(alloc, params, boot) {
        Ok(core) => core,
        Err(_) => return unplayed(alloc),
    };
    let mut swept = Vec::new(alloc);
    let mut play: Play<C, P> = Play {
        core,
        moment: 0,
        waiting: Vec::new(alloc),
        parked: Vec::new(alloc),
        unwritten: Vec::new(alloc),
    };
    let played = play_events(alloc, &mut play, context, sink, &mut swept, events);
    let nobody_waits = has_nobody(&play);
    let ending = refusal(played, nobody_waits, end);
    let refusal = written(&mut play.unwritten, sink, ending);
    let Play { core, .. } = play;
    Replayed {
        played: Played {
            history: core.into_history(),
            swept: Sequence::from_vec(swept),
        },
        refusal,
    }
}

/// Plays a session over a cache of this kind that keeps no segments. Its rounds are led by the programs of the library, and its lines of the console
/// read with the stored functions of a table. Its clients have numbers from 1 to 250, as those of a session that is read.
pub fn run_session<C: LurkCore + Drop, M: Runner, L: Programs<M>, K: Sink>(
    alloc: Global,
    session: Session,
    vmods: &VmodTable,
    library: &mut L,
    params: &Params,
    boot: Boot,
    sink: &mut K,
) -> Replayed
where
    M::Program: Drop,
    requires clients { HasClients session }
    requires unsegmented { params.now.segments ≡ false }
    ensures replayed { SessionEnds vmods.now.stored (plan_of (Wants (language_of L.of_text M.turns M.targets M.default_of L.backends)) (beginning_of params.now boot)) session result.played.history (K.held sink.old) (K.held sink.new) result.refusal }
    ensures swept { IsSweptBy session (length result.played.swept) result.refusal }
    ensures later { K.faults sink.old ≤ K.faults sink.new }
    ensures cause { result.refusal ≡ Some ReplayError.WriteFault → Rose (K.faults sink.old) (K.faults sink.new) }
{
    match build(alloc, session, vmods) {
        Ok(script) => play_session::<C, Turn<M, M::Program, L>, K>(
            alloc, script, params, boot, library, sink,
        ),
        Err(_) => unplayed(alloc),
    }
}
