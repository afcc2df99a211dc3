// An entry that fits: whether it may be answered so.
ghost use Rattle.std.specs.Prelude.{◌≡◌, ◌≤◌, ℕ, Some, None, true, false, IfOk};
ghost use Rattle.cache_law.specs.declared.setting.Params.{Params as Limits};
ghost use Rattle.cache_law.specs.History.{Fits, HasWaited, reached};
ghost use Rattle.cache_law.specs.State.{State};
ghost use Rattle.audit_laws.specs.declared.kind.Kind.TheVariants as kinds;
ghost use Rattle.audit_laws.specs.Faults.{judged_entry};
ghost use Rattle.history_audit.specs.Alongside.{Answers, Compares};
ghost use Rattle.history_audit.specs.Saying.{asks_bans as asks, refused_token as token_refused};

use crate::Following;
use crate::listing::may_list;
use crate::saying::{asks_bans, is_same, refused_token};
use crate::stepping::{advance, bytes_behind, is_dropped, stepped};
use audit_laws::Kind;
use cache_law::{Call, Reply};
use journal_audit::{Expected, Fault};
use journal_text::{Said, Shown, show};
use std::alloc::{AllocError, Global};

fn otherwise(expected: Expected) -> Fault
    ensures { result ≡ record { kind = kinds.Reply; expected = expected } }
{
    Fault {
        kind: Kind::Reply,
        expected,
    }
}

// A list of bans may be one of several. The cache's own reply to the call is put by.
fn list(
    alloc: Global,
    following: Following,
    said: Said,
) -> Result<Result<Following, Fault>, AllocError>
    requires order { (reached following.core.beginning following.core.entries).moment ≤ said.moment }
    requires waited { HasWaited (reached following.core.beginning following.core.entries) said.caller said.call }
    requires asked { asks said.call ≡ true }
    ensures { IfOk result (Answers following said) }
{
    let Said {
        caller,
        moment,
        call,
        reply,
    } = said;
    if !may_list(alloc, &following.core, &following.bans, moment, &reply)? {
        return Ok(Err(otherwise(Expected::ListOfBans)));
    }
    Ok(Ok(advance(alloc, following, caller, moment, call)?.following))
}

// A refused insertion closes its fetch and does no more, as the drop of the fetch does.
fn refuse(
    alloc: Global,
    following: Following,
    said: Said,
    token: u64,
) -> Result<Result<Following, Fault>, AllocError>
    requires order { (reached following.core.beginning following.core.entries).moment ≤ said.moment }
    requires refused { token_refused said.call said.reply ≡ Some token }
    ensures { IfOk result (Answers following said) }
{
    let Following { core, used, bans } = following;
    let used = bytes_behind(used, &said.call);
    let mut core = core;
    let drop_call = Call::Drop { token };
    let reply = stepped(&mut core, alloc, said.caller, said.moment, drop_call)?;
    if !is_dropped(&reply) {
        return Ok(Err(otherwise(Expected::Reply(Shown::NotOpen))));
    }
    Ok(Ok(Following { core, used, bans }))
}

// What is wrong with the reply that a line shows, where the cache told this one.
fn fault_of(alloc: Global, told: &Reply, reply: Shown) -> Result<Option<Fault>, AllocError>
    ensures { IfOk result (Compares told.now reply) }
{
    if is_same(alloc, show(alloc, told)?, reply)? {
        return Ok(None);
    }
    Ok(Some(otherwise(Expected::Reply(show(alloc, told)?))))
}

// Any other call has one answer.
fn compare(
    alloc: Global,
    following: Following,
    said: Said,
) -> Result<Result<Following, Fault>, AllocError>
    requires order { (reached following.core.beginning following.core.entries).moment ≤ said.moment }
    requires waited { HasWaited (reached following.core.beginning following.core.entries) said.caller said.call }
    requires other { asks said.call ≡ false }
    requires kept { token_refused said.call said.reply ≡ None }
    ensures { IfOk result (Answers following said) }
{
    let Said {
        caller,
        moment,
        call,
        reply,
    } = said;
    let advanced = advance(alloc, following, caller, moment, call)?;
    match fault_of(alloc, &advanced.told, reply)? {
        Some(fault) => Ok(Err(fault)),
        None => Ok(Ok(advanced.following)),
    }
}

/// Goes on with an entry that fits, or says that it may not be answered so.
pub(crate) fn answer(
    alloc: Global,
    following: Following,
    said: Said,
) -> Result<Result<Following, Fault>, AllocError>
    requires order { (reached following.core.beginning following.core.entries).moment ≤ said.moment }
    requires waited { HasWaited (reached following.core.beginning following.core.entries) said.caller said.call }
    ensures { IfOk result (Answers following said) }
{
    if asks_bans(&said.call) {
        return list(alloc, following, said);
    }
    match refused_token(&said) {
        Some(token) => refuse(alloc, following, said, token),
        None => compare(alloc, following, said),
    }
}
