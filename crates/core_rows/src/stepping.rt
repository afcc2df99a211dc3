// Cores, and their steps.
ghost use Rattle.std.specs.Prelude.{◌≡◌, [], IfNone, IfOk, false};
ghost use Rattle.cache_law.specs.History.{HasWaited, Legal, reached};

use cache_law::{Boot, CacheCore, Call, Params, StepError, Told};
use std::alloc::{AllocError, Global};
use units::{Sequence, Text};

/// A new core at these limits, which keeps no segments.
pub fn core_of<C: CacheCore>(alloc: Global, room: u64, history: u64) -> Result<C, AllocError>
    ensures { IfOk result (λ core. (C.history core ≡ []) × Legal (C.beginning core) [] × ((C.beginning core).params.segments ≡ false)
        × ((C.beginning core).base.entries ≡ 0)) }
{
    let params = Params {
        room,
        history,
        segments: false,
    };
    core_within(alloc, &params)
}

/// A new core, whose history may be kept in segments.
pub fn core_within<C: CacheCore>(alloc: Global, params: &Params) -> Result<C, AllocError>
    ensures { IfOk result (λ core. (C.history core ≡ []) × Legal (C.beginning core) [] × ((C.beginning core).params ≡ params.now)
        × ((C.beginning core).base.entries ≡ 0)) }
{
    let text = Text::of(alloc, b"vcl 4.1;")?;
    let boot = Boot {
        text,
        backends: Sequence::new(alloc),
    };
    C::make(alloc, params, boot)
}

// The token that the caller waits for where it makes this call.
fn awaited<C: CacheCore>(core: &C, caller: u32, call: &Call) -> Option<u64>
    ensures { IfNone result (HasWaited (reached (C.beginning core.now) (C.history core.now)) caller call.now) }
{
    match call {
        Call::Lookup(_) => core.awaits(caller),
        _ => None,
    }
}

/// A step; none where the caller still waits.
pub fn step<C: CacheCore>(
    alloc: Global,
    core: &mut C,
    caller: u32,
    reading: u64,
    call: Call,
) -> Option<Result<Told, StepError>> {
    match awaited(core, caller, &call) {
        Some(_) => None,
        None => Some(core.step(alloc, caller, reading, call)),
    }
}
