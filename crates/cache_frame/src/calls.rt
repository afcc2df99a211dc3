// What a call does to the desk and to the shelf.
ghost use Rattle.std.specs.Prelude.{◌≡◌, ◌≤◌, ◌+◌, ◌*◌, ◌<◌, ◌^◌, ℕ, Option, Some, true, false, length, if◌then◌else◌, IfNone, IfOk, IfSome, IsOk, OnErr, OnOk};
ghost use Rattle.cache_law.specs.declared.call.Call.TheVariants.{Lookup as LookupCall, Insert as InsertCall, Ban as BanCall, BanList as BanListCall, Purge as PurgeCall, Xkey as XkeyCall};
ghost use Rattle.cache_law.specs.declared.object.Object.{Object as Made};
ghost use Rattle.cache_law.specs.Core.{is_kept, is_lookup};
ghost use Rattle.cache_law.specs.History.{is_numbered};
ghost use Rattle.cache_law.specs.Law.{answered, refused};
ghost use Rattle.cache_law.specs.State.{at_moment, has_fetch, is_gone, reserve, without_fetch};
ghost use Rattle.cache_desk.specs.Desk.{bare};
ghost use Rattle.cache_frame.specs.Asked.{found_in, is_untested, says_gone};
ghost use Rattle.cache_frame.specs.Found.{AreMarks, Finds, FindsFor, FindsStale, Takes, is_insertion, opens_more};
ghost use Rattle.cache_frame.specs.Framed.{Reserves};
ghost use Rattle.cache_frame.specs.Shelves.{StandsOn, Tells, reply_of_placing};
ghost use Rattle.cache_frame.specs.Step.{Answered, IsRefusal};
ghost use Rattle.cache_desk.specs.Stock.{Stock, with_stock};

use crate::finding::{
    Asked, Finding, Found, StaleObject, asked_by, finding_by, opens_fetch, reply_of, says_gone,
    taken, use_in, wait_in,
};
use crate::seen::{Placing, Use};
use crate::shelf::Shelf;
use cache_desk::{Answer, Desk};
use cache_law::{Ban, Call, Object, Query, Reply};
use std::alloc::{AllocError, Global};
use units::{Sequence, Shared, Text, out_of_memory};

/// What a call of the caller finds: a lookup in its open round, and an insertion of its open fetch. No other call asks anything of the shelf.
pub(crate) fn find<S: Shelf>(
    alloc: Global,
    desk: &Desk,
    shelf: &S,
    caller: u32,
    moment: u64,
    call: &Call,
) -> Result<Asked<S::Marks>, AllocError>
    ensures found { IfOk result (λ asked. FindsFor S.Stands S.IsMarked desk.now shelf.now moment caller call.now asked) }
    ensures other { is_lookup call.now ≡ false → IsOk result }
{
    match call {
        Call::Lookup(query) => {
            let found = find_for(alloc, desk, shelf, caller, moment, query)?;
            Ok(asked_by(found))
        }
        Call::Insert { token, stale, .. } => Ok(find_stale(
            alloc, desk, shelf, caller, moment, *token, *stale,
        )),
        Call::Begin | Call::Draw | Call::Pick { .. } => Ok(Asked::Nothing),
        Call::Ban(_) | Call::BanList | Call::Purge { .. } => Ok(Asked::Nothing),
        Call::Xkey { .. } | Call::SetHealth { .. } | Call::Load(_) => Ok(Asked::Nothing),
        Call::Switch { .. } | Call::Discard { .. } | Call::VclList => Ok(Asked::Nothing),
        Call::Drop { .. } | Call::End => Ok(Asked::Nothing),
    }
}

/// What an insertion finds of its stale object. One of a fetch that isn't open asks nothing.
fn find_stale<S: Shelf>(
    alloc: Global,
    desk: &Desk,
    shelf: &S,
    caller: u32,
    moment: u64,
    token: u64,
    stale: Option<u64>,
) -> Asked<S::Marks>
    ensures { FindsStale S.Stands desk.now shelf.now moment caller token stale result }
{
    if !desk.has_fetch(caller, token) {
        return Asked::Nothing;
    }
    match shelf.is_gone(alloc, moment, stale) {
        Ok(true) => Asked::Insert(StaleObject::Gone),
        Ok(false) => Asked::Insert(StaleObject::There),
        Err(_) => Asked::Insert(StaleObject::Untested),
    }
}

fn find_for<S: Shelf>(
    alloc: Global,
    desk: &Desk,
    shelf: &S,
    caller: u32,
    moment: u64,
    query: &Query,
) -> Result<Option<Found<S::Marks>>, AllocError>
    ensures { IfOk result (Finds S.Stands S.IsMarked desk.now shelf.now moment caller query.now) }
{
    if !desk.has_round(caller) {
        return Ok(None);
    }
    if query.options.always_miss {
        return Ok(Some(Found {
            finding: Finding::Miss(None),
            marks: None,
        }));
    }
    let seen = shelf.look(alloc, moment, query)?;
    let under_way = desk.least_token(query.key.as_slice());
    Ok(Some(Found {
        finding: finding_by(query, under_way, seen.fresh, seen.grace, seen.stale),
        marks: Some(seen.marks),
    }))
}

/// How many rounds and fetches are open behind what the call is judged by: the law's answer, or a refusal where its stale object
/// couldn't be tested.
pub(crate) fn open_after<S: Shelf>(
    desk: &Desk,
    shelf: &S,
    caller: u32,
    moment: u64,
    call: &Call,
    asked: &Asked<S::Marks>,
) -> u128
    requires { FindsFor S.Stands S.IsMarked desk.now shelf.now moment caller call.now asked.now }
    ensures reserve { (room : ℕ) → Reserves S.Stands room desk.now shelf.now moment caller call.now (is_untested asked.now) result }
    ensures bound { result ≤ 2 ^ 65 }
{
    match call {
        Call::Begin => desk.open_with_round(caller),
        Call::Draw => desk.open(),
        Call::Lookup(_) => open_with(desk, asked),
        Call::Pick { .. } | Call::Ban(_) | Call::BanList => desk.open(),
        Call::Purge { .. } | Call::Xkey { .. } | Call::SetHealth { .. } => desk.open(),
        Call::Load(_) | Call::Switch { .. } | Call::Discard { .. } => desk.open(),
        Call::VclList => desk.open(),
        Call::Insert { token, .. } => open_without_inserted(desk, caller, *token, asked),
        Call::Drop { token } => desk.open_without_fetch(caller, *token),
        Call::End => desk.open_without_round(caller),
    }
}

/// What is open behind a lookup that found so.
fn open_with<M>(desk: &Desk, asked: &Asked<M>) -> u128
    ensures value { result ≡ length desk.now.rounds + length desk.now.fetches + (if opens_more (found_in asked.now) then 1 else 0) }
    ensures bound { result ≤ 2 ^ 65 }
{
    match asked {
        Asked::Lookup(found) => {
            if opens_fetch(&found.finding) {
                desk.open() + 1
            } else {
                desk.open()
            }
        }
        Asked::Insert(_) | Asked::Nothing => desk.open(),
    }
}

/// What is open behind an insertion: a stale object that is gone leaves the fetch open.
fn open_without_inserted<M>(desk: &Desk, caller: u32, token: u64, asked: &Asked<M>) -> u128
    ensures value { result ≡ length desk.now.rounds + (if says_gone asked.now then length desk.now.fetches else (if has_fetch desk.now.fetches caller token then length (without_fetch token desk.now.fetches) else length desk.now.fetches)) }
    ensures bound { result ≤ 2 ^ 65 }
{
    if says_gone(asked) {
        return desk.open();
    }
    desk.open_without_fetch(caller, token)
}

/// What is open behind a refusal of the call, which closes the fetch of an insertion.
pub(crate) fn open_refused(desk: &Desk, call: &Call) -> u128
    ensures value { 64 * result ≡ reserve (refused (bare desk.now) call.now) }
    ensures bound { result ≤ 2 ^ 65 }
{
    match call {
        Call::Insert { token, .. } => desk.open_without(*token),
        Call::Begin | Call::Draw | Call::Lookup(_) | Call::Pick { .. } => desk.open(),
        Call::Ban(_) | Call::BanList | Call::Purge { .. } | Call::Xkey { .. } => desk.open(),
        Call::SetHealth { .. } | Call::Load(_) | Call::Switch { .. } => desk.open(),
        Call::Discard { .. } | Call::VclList | Call::Drop { .. } | Call::End => desk.open(),
    }
}

/// Answers the call, which asked so, and leaves what is kept behind it. Where memory is wanting, the desk is as before and the
/// shelf stands for the same. A lookup takes what was found.
pub(crate) fn answer<S: Shelf>(
    alloc: Global,
    desk: &mut Desk,
    shelf: &mut S,
    room: u64,
    caller: u32,
    moment: u64,
    call: &Call,
    asked: &mut Asked<S::Marks>,
) -> Result<Answer, AllocError>
    requires found { FindsFor S.Stands S.IsMarked desk.old shelf.old moment caller call.now asked.old }
    requires tested { is_untested asked.old ≡ false }
    requires numbers { desk.old.next + 1 < 2 ^ 64 }
    requires issues { (S.stock shelf.old).issued + 1 < 2 ^ 64 }
    requires vcls { (stock : Stock) → is_numbered (answered room (at_moment moment (with_stock stock (bare desk.old))) caller call.now).reply ≡ true }
    ensures ok { IfOk result (Answered S.Stands room desk.old shelf.old desk.new shelf.new caller moment call.now) }
    ensures desk { OnErr result (desk.new ≡ desk.old) }
    ensures shelf { OnErr result (StandsOn S.Stands shelf.old shelf.new) }
    ensures kept { is_kept (bare desk.old) caller call.now ≡ true → IsOk result }
{
    match call {
        Call::Begin => desk.begin(alloc, caller, moment),
        Call::Draw => Ok(desk.draw(caller, moment)),
        Call::Lookup(query) => {
            let found = taken(asked);
            lookup(alloc, desk, shelf, caller, moment, query, found)
        }
        Call::Pick { vcl, target, word } => desk.pick(alloc, moment, *vcl, target, *word),
        Call::Insert {
            token,
            object,
            stale,
        } => {
            let gone = says_gone(asked);
            Ok(insert(
                alloc, desk, shelf, room, caller, moment, *token, object, *stale, gone,
            ))
        }
        Call::Ban(ban) => issue(alloc, desk, shelf, moment, ban),
        Call::BanList => list_bans(alloc, desk, shelf, moment),
        Call::Purge { key } => purge(alloc, desk, shelf, moment, key),
        Call::Xkey { keys, soft } => purge_by(alloc, desk, shelf, moment, keys, *soft),
        Call::SetHealth { backend, health } => desk.set_health(moment, backend, *health),
        Call::Load(source) => desk.load(alloc, moment, source),
        Call::Switch { name } => desk.switch(moment, name),
        Call::Discard { name } => Ok(desk.discard(moment, name)),
        Call::VclList => desk.list_vcls(alloc, moment),
        Call::Drop { token } => Ok(desk.drop_fetch(caller, moment, *token)),
        Call::End => Ok(desk.end(caller, moment)),
    }
}

/// Refuses the insertion of an open fetch for want of memory, which closes the fetch. Of another call nothing is
/// said.
pub(crate) fn refuse(desk: &mut Desk, caller: u32, moment: u64, call: &Call) -> Option<Answer>
    ensures refused { IfSome result (λ answer. IsRefusal desk.old desk.new moment caller call.now answer) }
    ensures other { IfNone result (desk.new ≡ desk.old) }
    ensures kept { IfNone result (is_insertion desk.old caller call.now ≡ false) }
{
    match call {
        Call::Insert { token, .. } => refuse_insertion(desk, caller, moment, *token),
        Call::Begin | Call::Draw | Call::Lookup(_) | Call::Pick { .. } => None,
        Call::Ban(_) | Call::BanList | Call::Purge { .. } | Call::Xkey { .. } => None,
        Call::SetHealth { .. } | Call::Load(_) | Call::Switch { .. } => None,
        Call::Discard { .. } | Call::VclList | Call::Drop { .. } | Call::End => None,
    }
}

fn refuse_insertion(desk: &mut Desk, caller: u32, moment: u64, token: u64) -> Option<Answer>
    ensures refused { (object : Made) (stale : Option ℕ) → IfSome result (λ answer. IsRefusal desk.old desk.new moment caller (InsertCall token object stale) answer) }
    ensures other { IfNone result (desk.new ≡ desk.old) }
    ensures kept { IfNone result (has_fetch desk.old.fetches caller token ≡ false) }
{
    if !desk.has_fetch(caller, token) {
        return None;
    }
    desk.close_fetch(moment, token);
    Some(Answer {
        told: Reply::Refused,
        kept: Reply::Refused,
    })
}

fn lookup<S: Shelf>(
    alloc: Global,
    desk: &mut Desk,
    shelf: &mut S,
    caller: u32,
    moment: u64,
    query: &Query,
    found: Option<Found<S::Marks>>,
) -> Result<Answer, AllocError>
    requires found { Finds S.Stands S.IsMarked desk.old shelf.old moment caller query.now found }
    requires numbers { desk.old.next + 1 < 2 ^ 64 }
    ensures ok { (room : ℕ) → IfOk result (Answered S.Stands room desk.old shelf.old desk.new shelf.new caller moment (LookupCall query.now)) }
    ensures desk { OnErr result (desk.new ≡ desk.old) }
    ensures shelf { OnErr result (StandsOn S.Stands shelf.old shelf.new) }
{
    match found {
        Some(Found { finding, marks }) => {
            look(alloc, desk, shelf, caller, moment, query, finding, marks)
        }
        None => {
            desk.pass(moment);
            Ok(Answer {
                told: Reply::NoRound,
                kept: Reply::NoRound,
            })
        }
    }
}

/// In an open round, with these marks of the shelf's.
fn look<S: Shelf>(
    alloc: Global,
    desk: &mut Desk,
    shelf: &mut S,
    caller: u32,
    moment: u64,
    query: &Query,
    finding: Finding,
    marks: Option<S::Marks>,
) -> Result<Answer, AllocError>
    requires found { Finds S.Stands S.IsMarked desk.old shelf.old moment caller query.now (Some (record { finding = finding; marks = marks })) }
    requires numbers { desk.old.next + 1 < 2 ^ 64 }
    ensures ok { (room : ℕ) → IfOk result (Answered S.Stands room desk.old shelf.old desk.new shelf.new caller moment (LookupCall query.now)) }
    ensures desk { OnErr result (desk.new ≡ desk.old) }
    ensures shelf { OnErr result (StandsOn S.Stands shelf.old shelf.new) }
{
    let opens = opens_fetch(&finding);
    let used_as = use_in(&finding);
    let used = desk.entries();
    let answer = match Answer::twice(alloc, reply_of(desk.next(), finding)) {
        Ok(answer) => answer,
        Err(_) => return Err(out_of_memory(marks)),
    };
    if desk
        .open_fetch_if(alloc, opens, caller, &query.key)
        .is_err()
    {
        return Err(out_of_memory((answer, marks)));
    }
    if take(shelf, used, moment, query, marks, used_as).is_err() {
        desk.close_newest_if(opens);
        return Err(out_of_memory(answer));
    }
    desk.note_lookup(caller, moment, opens, wait_in(&answer.told));
    Ok(answer)
}

/// Lets the shelf do what its marks say. Without marks it was asked for nothing.
fn take<S: Shelf>(
    shelf: &mut S,
    used: u64,
    moment: u64,
    query: &Query,
    marks: Option<S::Marks>,
    used_as: Use,
) -> Result<(), AllocError>
    requires { AreMarks S.IsMarked shelf.old moment query.now marks }
    ensures ok { OnOk result (Takes S.Stands shelf.old shelf.new used moment query.now marks used_as) }
    ensures err { OnErr result (StandsOn S.Stands shelf.old shelf.new) }
{
    match marks {
        Some(marks) => shelf.take(used, moment, query, marks, used_as),
        None => Ok(()),
    }
}

/// Where memory is wanting, the insertion is refused. It has been asked already whether the stale object is gone.
fn insert<S: Shelf>(
    alloc: Global,
    desk: &mut Desk,
    shelf: &mut S,
    room: u64,
    caller: u32,
    moment: u64,
    token: u64,
    object: &Shared<Object>,
    stale: Option<u64>,
    gone: bool,
) -> Answer
    requires { has_fetch desk.old.fetches caller token ≡ true → Tells S.Stands shelf.old moment (λ state. gone ≡ is_gone stale state.objects) }
    ensures { Answered S.Stands room desk.old shelf.old desk.new shelf.new caller moment (InsertCall token object.now stale) result }
{
    if !desk.has_fetch(caller, token) {
        desk.pass(moment);
        return Answer {
            told: Reply::NotOpen,
            kept: Reply::NotOpen,
        };
    }
    if gone {
        desk.pass(moment);
        return Answer {
            told: Reply::StaleGone,
            kept: Reply::StaleGone,
        };
    }
    let placing = shelf.insert(alloc, room, desk.entries(), moment, token, object, stale);
    desk.close_fetch(moment, token);
    Answer {
        told: placed_reply(token, placing),
        kept: placed_reply(token, placing),
    }
}

fn placed_reply(token: u64, placing: Placing) -> Reply
    ensures { result ≡ reply_of_placing token placing }
{
    match placing {
        Placing::Stored => Reply::Stored(token),
        Placing::NotInTime => Reply::NotInTime,
        Placing::NoRoom => Reply::NoRoom,
        Placing::Refused => Reply::Refused,
    }
}

fn issue<S: Shelf>(
    alloc: Global,
    desk: &mut Desk,
    shelf: &mut S,
    moment: u64,
    ban: &Shared<Ban>,
) -> Result<Answer, AllocError>
    requires { (S.stock shelf.old).issued + 1 < 2 ^ 64 }
    ensures ok { (room caller : ℕ) → IfOk result (Answered S.Stands room desk.old shelf.old desk.new shelf.new caller moment (BanCall ban.now)) }
    ensures desk { OnErr result (desk.new ≡ desk.old) }
    ensures shelf { OnErr result (StandsOn S.Stands shelf.old shelf.new) }
{
    shelf.ban(alloc, moment, ban)?;
    desk.pass(moment);
    Ok(Answer {
        told: Reply::Banned,
        kept: Reply::Banned,
    })
}

fn list_bans<S: Shelf>(
    alloc: Global,
    desk: &mut Desk,
    shelf: &S,
    moment: u64,
) -> Result<Answer, AllocError>
    ensures ok { (room caller : ℕ) → IfOk result (Answered S.Stands room desk.old shelf.now desk.new shelf.now caller moment BanListCall) }
    ensures desk { OnErr result (desk.new ≡ desk.old) }
{
    let answer = Answer::twice(alloc, Reply::Bans(shelf.ban_lines(alloc, moment)?))?;
    desk.pass(moment);
    Ok(answer)
}

fn purge<S: Shelf>(
    alloc: Global,
    desk: &mut Desk,
    shelf: &mut S,
    moment: u64,
    key: &Sequence<Text>,
) -> Result<Answer, AllocError>
    ensures ok { (room caller : ℕ) → IfOk result (Answered S.Stands room desk.old shelf.old desk.new shelf.new caller moment (PurgeCall key.now)) }
    ensures desk { OnErr result (desk.new ≡ desk.old) }
    ensures shelf { OnErr result (StandsOn S.Stands shelf.old shelf.new) }
{
    let count = shelf.purge(alloc, moment, key)?;
    desk.pass(moment);
    Ok(Answer {
        told: Reply::Purged(count),
        kept: Reply::Purged(count),
    })
}

fn purge_by<S: Shelf>(
    alloc: Global,
    desk: &mut Desk,
    shelf: &mut S,
    moment: u64,
    keys: &Sequence<Text>,
    soft: bool,
) -> Result<Answer, AllocError>
    ensures ok { (room caller : ℕ) → IfOk result (Answered S.Stands room desk.old shelf.old desk.new shelf.new caller moment (XkeyCall keys.now soft)) }
    ensures desk { OnErr result (desk.new ≡ desk.old) }
    ensures shelf { OnErr result (StandsOn S.Stands shelf.old shelf.new) }
{
    let count = shelf.purge_by(alloc, moment, keys, soft)?;
    desk.pass(moment);
    Ok(Answer {
        told: Reply::Purged(count),
        kept: Reply::Purged(count),
    })
}
