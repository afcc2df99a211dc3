// A job with the stored functions that the program has.
ghost use Rattle.std.specs.Prelude.{◌≡◌, IfOk, OnErr};
ghost use Rattle.vcl_library.specs.Functions.{std_functions};
ghost use Rattle.varn_program.specs.Jobs.{IsUnsegmented, IsWhole, Plays};
ghost use Rattle.wire.specs.Causes.{Rose};

use crate::command::replay;
use crate::job::Job;
use crate::loading::load;
use crate::outcome::{Outcome, Status};
use crate::playing::stopped;
use ban_lurker::LurkCore;
use std::alloc::{AllocError, Global};
use units::Shared;
use vcl_library::{std_answer, std_vmods};
use vmod_host::VmodTable;
use wire::{Sink, Source};

// Does the job with a table of stored functions.
fn do_job<C: LurkCore + Drop, S: Source, K: Sink>(
    alloc: Global,
    job: &Job,
    vmods: &Shared<VmodTable>,
    source: &mut S,
    sink: &mut K,
) -> Outcome
    requires functions { vmods.now.stored ≡ std_functions }
    requires unsegmented { IsUnsegmented job.now }
    ensures plays { Plays vmods.now.stored job.now (S.left source.old) (S.left source.new) (K.held sink.old) (K.held sink.new) (source.new ≡ source.old) result }
    ensures complete { IsWhole vmods.now.stored job.now (S.left source.old) (K.held sink.old) (K.held sink.new) (Rose (S.faults source.old) (S.faults source.new)) (Rose (K.faults sink.old) (K.faults sink.new)) result }
    ensures read_fault { result.status ≡ Status.ReadFault → Rose (S.faults source.old) (S.faults source.new) }
    ensures write_fault { result.status ≡ Status.WriteFault → Rose (K.faults sink.old) (K.faults sink.new) }
{
    match job {
        Job::Replay(params) => replay::<C, S, K>(alloc, params, vmods, source, sink),
        Job::Load { seed, steps } => load::<C, K>(alloc, *seed, *steps, vmods, sink),
    }
}

// The job, or want of memory for the table.
fn try_job<C: LurkCore + Drop, S: Source, K: Sink>(
    alloc: Global,
    job: &Job,
    source: &mut S,
    sink: &mut K,
) -> Result<Outcome, AllocError>
    requires { IsUnsegmented job.now }
    ensures plays { IfOk result (λ outcome. Plays std_functions job.now (S.left source.old) (S.left source.new) (K.held sink.old) (K.held sink.new) (source.new ≡ source.old) outcome) }
    ensures complete { IfOk result (λ outcome. IsWhole std_functions job.now (S.left source.old) (K.held sink.old) (K.held sink.new) (Rose (S.faults source.old) (S.faults source.new)) (Rose (K.faults sink.old) (K.faults sink.new)) outcome) }
    ensures read_fault { IfOk result (λ outcome. outcome.status ≡ Status.ReadFault → Rose (S.faults source.old) (S.faults source.new)) }
    ensures write_fault { IfOk result (λ outcome. outcome.status ≡ Status.WriteFault → Rose (K.faults sink.old) (K.faults sink.new)) }
    ensures source { OnErr result (source.new ≡ source.old) }
    ensures sink { OnErr result (sink.new ≡ sink.old) }
{
    let vmods = Shared::new(alloc, std_vmods(alloc, std_answer)?)?;
    Ok(do_job::<C, S, K>(alloc, job, &vmods, source, sink))
}

/// Does the job over a cache of this kind. Texts of VCL may call the functions of the modules `std`
/// and `cookie`.
pub fn do_with_std<C: LurkCore + Drop, S: Source, K: Sink>(
    alloc: Global,
    job: &Job,
    source: &mut S,
    sink: &mut K,
) -> Outcome
    requires { IsUnsegmented job.now }
    ensures plays { Plays std_functions job.now (S.left source.old) (S.left source.new) (K.held sink.old) (K.held sink.new) (source.new ≡ source.old) result }
    ensures complete { IsWhole std_functions job.now (S.left source.old) (K.held sink.old) (K.held sink.new) (Rose (S.faults source.old) (S.faults source.new)) (Rose (K.faults sink.old) (K.faults sink.new)) result }
    ensures read_fault { result.status ≡ Status.ReadFault → Rose (S.faults source.old) (S.faults source.new) }
    ensures write_fault { result.status ≡ Status.WriteFault → Rose (K.faults sink.old) (K.faults sink.new) }
{
    match try_job::<C, S, K>(alloc, job, source, sink) {
        Ok(outcome) => outcome,
        Err(_) => stopped(alloc, Status::NoMemory, None),
    }
}
