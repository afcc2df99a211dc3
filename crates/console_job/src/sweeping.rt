// The lurker, while no operator comes.
ghost use Rattle.std.specs.Prelude.{[]};
ghost use Rattle.turnstile.specs.Handles.{known};
ghost use Rattle.shared_cache.specs.Passes.{IsPassOf};
ghost use Rattle.crew.specs.Calls.{HasCalled};

use ban_lurker::LurkCore;
use console_link::Site;
use shared_cache::{CachePass, Errand};
use std::sync::Wait;

/// How many objects are tested on bans before it is looked again whether an operator came.
const MOST_ERRANDS: u32 = 256;

/// Tests objects on bans that wait for them, until none waits, and so many at most. Where memory is wanting the others wait on.
pub(crate) fn sweep<R: Wait, C: LurkCore>(site: &Site<'_, R, C>, pass: &mut CachePass)
    requires pass { IsPassOf site.now.shared.now pass.old }
    ensures pass { IsPassOf site.now.shared.now pass.new }
    ensures called { HasCalled (known pass.old) (known pass.new) [] }
{
    'errands: for _ in 0..MOST_ERRANDS {
        match site.shared.errand(site.rt, site.alloc, pass) {
            Ok(Errand::Settled(_) | Errand::Moved(_)) => {}
            Ok(Errand::Idle) | Err(_) => break,
        }
    }
}
