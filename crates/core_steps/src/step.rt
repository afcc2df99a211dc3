// One step.
ghost use Rattle.std.specs.Prelude.{◌≡◌, OnErr, OnOk};
ghost use Rattle.core_steps.specs.Steps.{MayCome, Moves};

use ban_lurker::{LurkCore, Verdict};
use cache_law::{Call, StepError, Told};
use std::alloc::Global;

/// A call of a caller at a reading of the clock, or a step of the lurker.
#[derive(Drop)]
pub enum CoreStep {
    Call {
        caller: u32,
        reading: u64,
        call: Call,
    },
    /// So many objects that wait are tested, or all where they are fewer.
    Lurk(u32),
    /// What was found of an object is settled.
    Settle(Verdict),
}

/// What came of a step.
#[derive(Drop)]
pub enum Came {
    Told(Told),
    Swept(u32),
    Settled(bool),
}

/// Makes the step. After an error the history is as before.
pub fn make_step<C: LurkCore>(
    alloc: Global,
    core: &mut C,
    step: CoreStep,
) -> Result<Came, StepError>
    requires may { MayCome (C.beginning core.old) (C.history core.old) step }
    ensures moves { OnOk result (Moves (C.beginning core.old) (C.history core.old) step (C.history core.new)) }
    ensures err { OnErr result (C.history core.new ≡ C.history core.old) }
    ensures same { C.beginning core.new ≡ C.beginning core.old }
{
    match step {
        CoreStep::Call {
            caller,
            reading,
            call,
        } => match core.step(alloc, caller, reading, call) {
            Ok(told) => Ok(Came::Told(told)),
            Err(error) => Err(error),
        },
        CoreStep::Lurk(count) => match core.lurk(alloc, count) {
            Ok(swept) => Ok(Came::Swept(swept)),
            Err(_) => Err(StepError::NoMemory),
        },
        CoreStep::Settle(verdict) => Ok(Came::Settled(core.settle(verdict))),
    }
}
