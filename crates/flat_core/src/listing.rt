// Whether a list of bans shows those that wait for objects.
ghost use Rattle.std.specs.Prelude.{◌≡◌, ◌&&◌};
ghost use Rattle.std.specs.List.{list_any};
ghost use Rattle.cache_law.specs.Object.{in_time};
ghost use Rattle.flat_core.specs.Listing.{is_missing, lacks_one};
ghost use Rattle.flat_core.specs.StoredObject.{since};

use crate::stored_ban::StoredBan;
use crate::stored_object::StoredObject;
use cache_law::{BanLine, is_in_time};
use std::collections::VecDeque;

/// Whether the ban waits for lookups, and the lines don't show it.
fn is_missing_in(ban: &StoredBan, lines: &[BanLine]) -> bool
    ensures { result ≡ is_missing lines.now ban.now }
{
    ban.is_waiting() && !ban.is_shown(lines)
}

/// Whether the lines lack a ban that the object has still to be tested on.
fn lacks_for(bans: &VecDeque<StoredBan>, kept: &StoredObject, lines: &[BanLine]) -> bool
    ensures { result ≡ list_any (is_missing lines.now) (since kept.now.tested bans.now.items) }
{
    for place in 0..bans.len() {
        let ban = &bans[place];
        if ban.number() <= kept.tested {
            return false;
        }
        if is_missing_in(ban, lines) {
            return true;
        }
    }
    false
}

fn lacks_in_time(
    bans: &VecDeque<StoredBan>,
    moment: u64,
    kept: &StoredObject,
    lines: &[BanLine],
) -> bool
    ensures { result ≡ lacks_one moment lines.now bans.now.items kept.now }
{
    is_in_time(moment, &kept.view.object) && lacks_for(bans, kept, lines)
}

/// Whether the lines lack a ban that an object in time has still to be tested on.
pub(crate) fn lacks(
    objects: &VecDeque<StoredObject>,
    bans: &VecDeque<StoredBan>,
    moment: u64,
    lines: &[BanLine],
) -> bool
    ensures { result ≡ list_any (lacks_one moment lines.now bans.now.items) objects.now.items }
{
    objects
        .iter()
        .any(|kept| lacks_in_time(bans, moment, kept, lines))
}
