// What becomes of the objects when a ban is issued.
ghost use Rattle.std.specs.Prelude.{◌≡◌, filter, map, nat_lt, IfOk};
ghost use Rattle.std.specs.List.{list_any};
ghost use Rattle.cache_law.specs.BansAtOnce.{open_line, open_lines};
ghost use Rattle.flat_core.specs.Banning.{ban_fates, banned_fate, is_needed};

use crate::stored_ban::StoredBan;
use crate::stored_object::{Fate, StoredObject};
use ban_expr::{Prepared, object_only};
use cache_law::{BanLine, is_in_time};
use std::alloc::{AllocError, Global};
use std::collections::VecDeque;
use units::Sequence;

fn banned_fate(
    alloc: Global,
    moment: u64,
    ban: &Prepared,
    kept: &StoredObject,
) -> Result<Fate, AllocError>
    ensures { IfOk result (λ fate. fate ≡ banned_fate moment ban.now kept.now) }
{
    let object = &kept.view.object;
    if is_in_time(moment, object) && ban.test(alloc, moment, object, None)? {
        Ok(Fate::Goes)
    } else {
        Ok(Fate::Stays)
    }
}

fn banned_fates(
    alloc: Global,
    moment: u64,
    ban: &Prepared,
    objects: &VecDeque<StoredObject>,
) -> Result<Sequence<Fate>, AllocError>
    ensures { IfOk result (λ fates. fates ≡ map (banned_fate moment ban.now) objects.now.items) }
{
    let mut fates = Sequence::new(alloc);
    for place in 0..objects.len() {
        fates.push(banned_fate(alloc, moment, ban, &objects[place])?)?;
    }
    Ok(fates)
}

/// What becomes of the objects when the ban is issued at the moment. One that looks at a request waits for lookups, and
/// leaves all as they are.
pub(crate) fn ban_fates(
    alloc: Global,
    moment: u64,
    ban: &Prepared,
    objects: &VecDeque<StoredObject>,
) -> Result<Sequence<Fate>, AllocError>
    ensures { IfOk result (λ fates. fates ≡ ban_fates moment ban.now objects.now.items) }
{
    if object_only(ban.ban()) {
        banned_fates(alloc, moment, ban, objects)
    } else {
        Ok(Sequence::new(alloc))
    }
}

/// Whether the object was last tested before the ban of this number was issued.
fn was_tested_before(number: u64, kept: &StoredObject) -> bool
    ensures { result ≡ nat_lt kept.now.tested number }
{
    kept.tested < number
}

/// Whether one of the objects was last tested before the ban of this number was issued.
fn is_before_one(number: u64, objects: &VecDeque<StoredObject>) -> bool
    ensures { result ≡ list_any (λ kept. nat_lt kept.tested number) objects.now.items }
{
    objects.iter().any(|kept| was_tested_before(number, kept))
}

/// Whether the ban waits for one of the objects.
fn is_needed(ban: &StoredBan, objects: &VecDeque<StoredObject>) -> bool
    ensures { result ≡ is_needed objects.now.items ban.now }
{
    ban.is_waiting() && is_before_one(ban.number(), objects)
}

/// Drops the bans that wait for none of the objects.
pub(crate) fn keep_needed(bans: &mut VecDeque<StoredBan>, objects: &VecDeque<StoredObject>)
    ensures { bans.new.items ≡ filter (is_needed objects.now.items) bans.old.items }
{
    bans.retain(|ban| is_needed(ban, objects));
}

fn ban_line(ban: &StoredBan) -> Result<BanLine, AllocError>
    ensures { IfOk result (λ line. line ≡ open_line ban.now) }
{
    Ok(BanLine {
        issued: ban.issued()?,
        completed: false,
    })
}

/// A line for each ban, newest first.
pub(crate) fn ban_lines(
    alloc: Global,
    bans: &VecDeque<StoredBan>,
) -> Result<Sequence<BanLine>, AllocError>
    ensures { IfOk result (λ lines. lines ≡ open_lines bans.now.items) }
{
    let mut lines = Sequence::new(alloc);
    for place in 0..bans.len() {
        lines.push(ban_line(&bans[place])?)?;
    }
    Ok(lines)
}
