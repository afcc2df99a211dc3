// The top call.
ghost use Rattle.std.specs.Prelude.{◌≡◌, ◌⊎◌, false};
ghost use Rattle.cache_law.specs.declared.setting.Params.{Params as Limits};
ghost use Rattle.vcl_library.specs.Functions.{std_functions};
ghost use Rattle.varn_program.specs.Run.{Ends, EndsReplay, IsComplete};
ghost use Rattle.varn_program.specs.Words.{AsksReplay};
ghost use Rattle.wire.specs.Causes.{Rose};

use crate::functions::do_with_std;
use crate::job::Job;
use crate::outcome::{Outcome, Status};
use crate::playing::{play, read_session, stopped};
use crate::words::asked;
use ban_lurker::LurkCore;
use cache_law::Params;
use session_text::SESSION_LIMIT;
use std::alloc::Global;
use units::{Shared, Text};
use vmod_host::VmodTable;
use wire::{ReadError, Sink, Source, read_all};

/// Reads the session from the source, plays it over a cache of this kind within these limits and writes its transcript to the
/// sink. Texts of VCL that its console is given may call the functions of the table.
pub fn replay<C: LurkCore + Drop, S: Source, K: Sink>(
    alloc: Global,
    params: &Params,
    vmods: &Shared<VmodTable>,
    source: &mut S,
    sink: &mut K,
) -> Outcome
    requires functions { vmods.now.stored ≡ std_functions }
    requires unsegmented { params.now.segments ≡ false }
    ensures ends { EndsReplay vmods.now.stored params.now (S.left source.old) (S.left source.new) (K.held sink.old) (K.held sink.new) result }
    ensures complete { IsComplete vmods.now.stored params.now (S.left source.old) (K.held sink.old) (K.held sink.new) (Rose (S.faults source.old) (S.faults source.new) ⊎ Rose (K.faults sink.old) (K.faults sink.new)) result }
    ensures read_fault { result.status ≡ Status.ReadFault → Rose (S.faults source.old) (S.faults source.new) }
    ensures write_fault { result.status ≡ Status.WriteFault → Rose (K.faults sink.old) (K.faults sink.new) }
{
    let text = match read_all(alloc, source, SESSION_LIMIT) {
        Ok(text) => text,
        Err(ReadError::Failed) => return stopped(alloc, Status::ReadFault, None),
        Err(ReadError::NoMemory) => return stopped(alloc, Status::NoMemory, None),
    };
    let session = match read_session(alloc, text.as_slice()) {
        Ok(session) => session,
        Err(outcome) => return outcome,
    };
    drop(text);
    play::<C, K>(alloc, params, vmods, session, sink)
}

/// Does what the words say: `replay` plays the session of the source over a cache of this kind, within the limits that the
/// options give or the usual ones. Texts of VCL may call the functions of the module `std`.
pub fn run<C: LurkCore + Drop, S: Source, K: Sink>(
    alloc: Global,
    words: &[Text],
    source: &mut S,
    sink: &mut K,
) -> Outcome
    ensures ends { Ends std_functions words.now (S.left source.old) (S.left source.new) (K.held sink.old) (K.held sink.new) result }
    ensures complete { (params : Limits) → AsksReplay words.now params → IsComplete std_functions params (S.left source.old) (K.held sink.old) (K.held sink.new) (Rose (S.faults source.old) (S.faults source.new) ⊎ Rose (K.faults sink.old) (K.faults sink.new)) result }
    ensures read_fault { result.status ≡ Status.ReadFault → Rose (S.faults source.old) (S.faults source.new) }
    ensures write_fault { result.status ≡ Status.WriteFault → Rose (K.faults sink.old) (K.faults sink.new) }
{
    match asked(alloc, words) {
        Ok(Some(params)) => do_with_std::<C, S, K>(alloc, &Job::Replay(params), source, sink),
        Ok(None) => stopped(alloc, Status::Words, None),
        Err(_) => stopped(alloc, Status::NoMemory, None),
    }
}
