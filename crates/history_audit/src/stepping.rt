// A cache that is stepped along.
ghost use Rattle.std.specs.Prelude.{◌≡◌, ◌≢◌, ◌+◌, ◌++◌, ◌<◌, ◌≤◌, ◌^◌, length, IfOk, MatchBool, MatchOption, OnOk};
ghost use Rattle.std.specs.Option.{option_to_list};
ghost use Rattle.cache_law.specs.declared.call.Reply.TheVariants.{Dropped as DroppedReply, Refused as RefusedReply};
ghost use Rattle.cache_law.specs.History.{HasWaited, bytes_of, reached};
ghost use Rattle.history_audit.specs.Alongside.{HasAdvanced, HasJoined, IsAwaited, issued_of};

use crate::Following;
use cache_law::{CacheCore, Call, Issued, Reply, entry_bytes};
use flat_core::FlatCore;
use std::alloc::{AllocError, Global};
use std::collections::VecDeque;

/// The fetch that the caller of a lookup waits for.
pub(crate) fn awaited(core: &FlatCore, caller: u32, call: &Call) -> Option<u64>
    ensures { MatchOption result (HasWaited (reached core.now.beginning core.now.entries) caller call.now) (IsAwaited (reached core.now.beginning core.now.entries) caller call.now) }
{
    match call {
        Call::Lookup(_) => core.awaits(caller),
        _ => None,
    }
}

/// Steps the cache with the call. An error means that memory was wanting.
pub(crate) fn stepped(
    core: &mut FlatCore,
    alloc: Global,
    caller: u32,
    moment: u64,
    call: Call,
) -> Result<Reply, AllocError>
    requires order { (reached core.old.beginning core.old.entries).moment ≤ moment }
    requires waited { HasWaited (reached core.old.beginning core.old.entries) caller call }
    ensures { IfOk result (HasJoined core.old core.new caller moment call) }
{
    match core.step(alloc, caller, moment, call) {
        Ok(told) => Ok(told.reply),
        Err(_) => Err(AllocError),
    }
}

/// What the entries of the segment take with one of this call.
pub(crate) fn bytes_behind(used: u64, call: &Call) -> u64
    ensures { used + bytes_of call.now < 2 ^ 64 → result ≡ used + bytes_of call.now }
{
    let bytes = entry_bytes(call).saturating_add(u128::from(used));
    bytes.min(u128::from(u64::MAX)) as u64
}

// The ban that the call issues behind so many.
fn issued_by(call: &Call, moment: u64, count: usize) -> Result<Option<Issued>, AllocError>
    requires { count < 2 ^ 63 }
    ensures { IfOk result (λ issued. option_to_list issued ≡ issued_of call.now moment count) }
{
    match call {
        Call::Ban(ban) => Ok(Some(Issued {
            number: count as u64 + 1,
            moment,
            ban: ban.copy()?,
        })),
        _ => Ok(None),
    }
}

// Puts the ban that was issued first.
fn note(bans: &mut VecDeque<Issued>, issued: Option<Issued>) -> Result<(), AllocError>
    ensures { OnOk result (bans.new.items ≡ option_to_list issued ++ bans.old.items) }
{
    match issued {
        Some(ban) => match bans.push_front(ban) {
            Ok(()) => Ok(()),
            Err(_) => Err(AllocError),
        },
        None => Ok(()),
    }
}

// The bans of the run behind the call.
fn noted(bans: VecDeque<Issued>, call: &Call, moment: u64) -> Result<VecDeque<Issued>, AllocError>
    ensures { IfOk result (λ now. now.items ≡ issued_of call.now moment (length bans.items) ++ bans.items) }
{
    let issued = issued_by(call, moment, bans.len())?;
    let mut bans = bans;
    note(&mut bans, issued)?;
    Ok(bans)
}

fn is_refusal(reply: &Reply) -> bool
    ensures { MatchBool result (reply.now ≡ RefusedReply) (reply.now ≢ RefusedReply) }
{
    match reply {
        Reply::Refused => true,
        _ => false,
    }
}

// A cache that refuses an insertion has no memory for it.
fn unrefused(reply: Reply) -> Result<Reply, AllocError>
    ensures { IfOk result (λ told. (told ≡ reply) × (told ≢ RefusedReply)) }
{
    if is_refusal(&reply) {
        return Err(AllocError);
    }
    Ok(reply)
}

/// What was stepped, and what the cache told of it.
#[derive(Drop)]
pub(crate) struct Advanced {
    pub following: Following,
    pub told: Reply,
}

/// Goes on with the call. An error means that memory was wanting.
pub(crate) fn advance(
    alloc: Global,
    following: Following,
    caller: u32,
    moment: u64,
    call: Call,
) -> Result<Advanced, AllocError>
    requires order { (reached following.core.beginning following.core.entries).moment ≤ moment }
    requires waited { HasWaited (reached following.core.beginning following.core.entries) caller call }
    ensures { IfOk result (λ advanced. HasAdvanced following advanced.following caller moment call advanced.told) }
{
    let Following { core, used, bans } = following;
    let used = bytes_behind(used, &call);
    let bans = noted(bans, &call, moment)?;
    let mut core = core;
    let told = unrefused(stepped(&mut core, alloc, caller, moment, call)?)?;
    Ok(Advanced {
        following: Following { core, used, bans },
        told,
    })
}

pub(crate) fn is_dropped(reply: &Reply) -> bool
    ensures { MatchBool result (reply.now ≡ DroppedReply) (reply.now ≢ DroppedReply) }
{
    match reply {
        Reply::Dropped => true,
        _ => false,
    }
}
