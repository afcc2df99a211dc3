// Tests of objects on bans, with no cache at hand.
ghost use Rattle.std.specs.Prelude.{◌≡◌, IfOk};
ghost use Rattle.std.specs.List.{list_any};
ghost use Rattle.cache_law.specs.Bans.{matches};
ghost use Rattle.ban_lurker.specs.Verdicts.{judged};

use crate::{Chore, Verdict};
use ban_expr::test;
use cache_law::{Issued, Object};
use std::alloc::{AllocError, Global};

/// Tests the chore's object on its bans. An error means that memory was wanting.
pub fn judge(alloc: Global, chore: Chore) -> Result<Verdict, AllocError>
    ensures { IfOk result (λ verdict. verdict ≡ judged chore) }
{
    let dead = is_matched(alloc, &chore.view.object, chore.bans.as_slice())?;
    Ok(Verdict {
        object: chore.object,
        mark: chore.mark,
        upto: chore.upto,
        dead,
    })
}

// Whether one of the bans matches the object.
fn is_matched(alloc: Global, object: &Object, bans: &[Issued]) -> Result<bool, AllocError>
    ensures { IfOk result (λ matched. matched ≡ list_any (matches object.now) bans.now) }
{
    for issued in bans {
        if test(alloc, &issued.ban, issued.moment, object, None)? {
            return Ok(true);
        }
    }
    Ok(false)
}
