// The least recently used, as many as have to go.
ghost use Rattle.std.specs.Prelude.{◌≡◌, ◌≤◌, IfOk, MatchOption};
ghost use Rattle.room_lru.specs.Members.{total_of};
ghost use Rattle.room_lru.specs.Room.{AreOut, LackRoom, others};

use crate::member::Member;
use std::alloc::{AllocError, Global};
use std::collections::BTreeMap;

/// The most that go for a new one.
const MAX_OUT: usize = 50;

/// The handles of the first of the members that make room for a new one of this size, without the one that it replaces;
/// `total` is what the others take. None where too many would have to go.
pub(crate) fn first_out(
    members: &BTreeMap<u64, Member>,
    alloc: Global,
    but: Option<u64>,
    total: u64,
    room: u64,
    size: u64,
) -> Result<Option<Vec<u64>>, AllocError>
    requires total { total ≡ total_of (others but members.now.entries) }
    requires holds { size ≤ room }
    ensures { IfOk result (λ out. MatchOption out
        (LackRoom room size (others but members.now.entries))
        (λ handles. AreOut room size (others but members.now.entries) handles.items)) }
{
    let mut left = total;
    let mut out = Vec::new(alloc);
    for (used, member) in members {
        if but == Some(*used) {
            continue;
        }
        if left <= room - size {
            return Ok(Some(out));
        }
        if out.len() == MAX_OUT {
            return Ok(None);
        }
        out.push(member.handle)?;
        left -= member.size;
    }
    Ok(Some(out))
}
