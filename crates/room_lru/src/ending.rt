// Several members that are to have other ends, all of them or none.
ghost use Rattle.std.specs.Prelude.{◌≡◌, ◌||◌, ◌&&◌, not, true, false, OnErr, OnOk};
ghost use Rattle.std.specs.Ordering.{nat_cmp};
ghost use Rattle.std.specs.List.{list_any};
ghost use Rattle.std.specs.BTreeMap.{IsOrdered};
ghost use Rattle.std.specs.BTreeSet.{contains};
ghost use Rattle.room_lru.specs.Ends.{End, by_end, is_end_at};
ghost use Rattle.room_lru.specs.Endings.{ends_new, ends_old, with_ends};
ghost use Rattle.room_lru.specs.Members.{with_end};

use crate::member::Member;
use std::alloc::AllocError;
use std::collections::{BTreeMap, BTreeSet};

/// A member by its last use, with its handle and its end, and the end that it is to have.
#[derive(Clone, Copy)]
pub struct Ending {
    pub used: u64,
    pub handle: u64,
    pub end: i128,
    pub new_end: i128,
}

fn enter_end(ends: &mut BTreeSet<(i128, u64)>, end: i128, handle: u64) -> Result<(), AllocError>
    ensures ok { OnOk result ((one : End) → contains by_end ends.new one ≡ (is_end_at end handle one || contains by_end ends.old one)) }
    ensures err { OnErr result ((one : End) → contains by_end ends.new one ≡ contains by_end ends.old one) }
{
    ends.insert((end, handle))?;
    Ok(())
}

fn leave_end(ends: &mut BTreeSet<(i128, u64)>, end: i128, handle: u64)
    ensures { (one : End) → contains by_end ends.new one ≡ (contains by_end ends.old one && not (is_end_at end handle one)) }
{
    ends.remove(&(end, handle));
}

fn leave_new(ends: &mut BTreeSet<(i128, u64)>, endings: &[Ending])
    ensures { (one : End) → contains by_end ends.new one ≡ (contains by_end ends.old one && not (list_any (ends_new one) endings.now)) }
{
    for ending in endings {
        leave_end(ends, ending.new_end, ending.handle);
    }
}

/// Takes the ends out that the members have.
pub(crate) fn leave_old(ends: &mut BTreeSet<(i128, u64)>, endings: &[Ending])
    ensures { (one : End) → contains by_end ends.new one ≡ (contains by_end ends.old one && not (list_any (ends_old one) endings.now)) }
{
    for ending in endings {
        leave_end(ends, ending.end, ending.handle);
    }
}

/// Puts the ends in that the members are to have, none of which is there. Where memory is wanting all is as before.
pub(crate) fn enter_new(
    ends: &mut BTreeSet<(i128, u64)>,
    endings: &[Ending],
) -> Result<(), AllocError>
    requires { (one : End) → list_any (ends_new one) endings.now ≡ true → contains by_end ends.old one ≡ false }
    ensures ok { OnOk result ((one : End) → contains by_end ends.new one ≡ (list_any (ends_new one) endings.now || contains by_end ends.old one)) }
    ensures err { OnErr result ((one : End) → contains by_end ends.new one ≡ contains by_end ends.old one) }
{
    for (at, ending) in endings.iter().enumerate() {
        if enter_end(ends, ending.new_end, ending.handle).is_err() {
            leave_new(ends, &endings[..at]);
            return Err(AllocError);
        }
    }
    Ok(())
}

fn set_end(members: &mut BTreeMap<u64, Member>, used: u64, end: i128)
    ensures entries { members.new.entries ≡ with_end used end members.old.entries }
    ensures ordered { IsOrdered nat_cmp members.new }
{
    if let Some(member) = members.get_mut(&used) {
        member.end = end;
    }
}

/// Gives the members their other ends. It takes no memory.
pub(crate) fn set_ends(members: &mut BTreeMap<u64, Member>, endings: &[Ending])
    requires { IsOrdered nat_cmp members.old }
    ensures entries { members.new.entries ≡ with_ends endings.now members.old.entries }
    ensures ordered { IsOrdered nat_cmp members.new }
{
    for ending in endings {
        set_end(members, ending.used, ending.new_end);
    }
}
