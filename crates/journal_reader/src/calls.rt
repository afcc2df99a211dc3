// Calls.
ghost use Rattle.std.specs.Prelude.{◌≡◌};
ghost use Rattle.journal_reader.specs.Reading.{Gives, ban_at, call_at, discard_at, drop_at, health_at, insert_at, key_call_at, load_at, lookup_at, pick_at, plain_call_at, purge_at, set_health_at, switch_at, vcl_call_at, xkey_at};

use crate::cursor::Cursor;
use crate::fault::{Halt, Wanted};
use crate::items::texts;
use crate::keys::{health_of, plain_call_of};
use crate::parts::{object, query, source, target};
use cache_law::{Ban, Call, Health};
use std::alloc::Global;
use units::{Sequence, Shared};

#[tactic(auto, unfolding(crate::specs::Reading::lookup_at))]
fn lookup(cursor: &mut Cursor<'_>, alloc: Global) -> Result<Call, Halt>
    ensures { Gives result cursor.new (lookup_at cursor.old) }
{
    let query = query(cursor, alloc)?;
    Ok(Call::Lookup(Shared::new(alloc, query)?))
}

#[tactic(auto, unfolding(crate::specs::Reading::pick_at))]
fn pick(cursor: &mut Cursor<'_>, alloc: Global) -> Result<Call, Halt>
    ensures { Gives result cursor.new (pick_at cursor.old) }
{
    let vcl = cursor.middle()?;
    let target = target(cursor, alloc)?;
    let word = cursor.long()?;
    let target = Shared::new(alloc, target)?;
    Ok(Call::Pick { vcl, target, word })
}

#[tactic(auto, unfolding(crate::specs::Reading::insert_at))]
fn insert(cursor: &mut Cursor<'_>, alloc: Global) -> Result<Call, Halt>
    ensures { Gives result cursor.new (insert_at cursor.old) }
{
    let token = cursor.long()?;
    let object = object(cursor, alloc)?;
    let stale = cursor.number_or_absent()?;
    let object = Shared::new(alloc, object)?;
    Ok(Call::Insert {
        token,
        object,
        stale,
    })
}

// A ban of these words, whose conditions are still to be read.
#[tactic(auto, unfolding(crate::specs::Reading::ban_at, crate::specs::Reading::ban_of))]
fn ban(cursor: &mut Cursor<'_>, alloc: Global) -> Result<Call, Halt>
    ensures { Gives result cursor.new (ban_at cursor.old) }
{
    let words = texts(cursor, alloc)?;
    let conditions = Sequence::new(alloc);
    let ban = Ban { words, conditions };
    Ok(Call::Ban(Shared::new(alloc, ban)?))
}

#[tactic(auto, unfolding(crate::specs::Reading::purge_at))]
fn purge(cursor: &mut Cursor<'_>, alloc: Global) -> Result<Call, Halt>
    ensures { Gives result cursor.new (purge_at cursor.old) }
{
    let key = texts(cursor, alloc)?;
    Ok(Call::Purge { key })
}

#[tactic(auto, unfolding(crate::specs::Reading::xkey_at))]
fn xkey(cursor: &mut Cursor<'_>, alloc: Global) -> Result<Call, Halt>
    ensures { Gives result cursor.new (xkey_at cursor.old) }
{
    let keys = texts(cursor, alloc)?;
    let soft = cursor.truth()?;
    Ok(Call::Xkey { keys, soft })
}

#[tactic(auto, unfolding(crate::specs::Reading::health_at))]
fn health(cursor: &mut Cursor<'_>) -> Result<Health, Halt>
    ensures { Gives result cursor.new (health_at cursor.old) }
{
    let found = health_of(cursor.key());
    cursor.named(Wanted::Health, found)
}

#[tactic(auto, unfolding(crate::specs::Reading::set_health_at))]
fn set_health(cursor: &mut Cursor<'_>) -> Result<Call, Halt>
    ensures { Gives result cursor.new (set_health_at cursor.old) }
{
    let backend = cursor.text()?;
    let health = health(cursor)?;
    Ok(Call::SetHealth { backend, health })
}

#[tactic(auto, unfolding(crate::specs::Reading::load_at))]
fn load(cursor: &mut Cursor<'_>, alloc: Global) -> Result<Call, Halt>
    ensures { Gives result cursor.new (load_at cursor.old) }
{
    let source = source(cursor, alloc)?;
    Ok(Call::Load(Shared::new(alloc, source)?))
}

#[tactic(auto, unfolding(crate::specs::Reading::switch_at))]
fn switch(cursor: &mut Cursor<'_>) -> Result<Call, Halt>
    ensures { Gives result cursor.new (switch_at cursor.old) }
{
    let name = cursor.text()?;
    Ok(Call::Switch { name })
}

#[tactic(auto, unfolding(crate::specs::Reading::discard_at))]
fn discard(cursor: &mut Cursor<'_>) -> Result<Call, Halt>
    ensures { Gives result cursor.new (discard_at cursor.old) }
{
    let name = cursor.text()?;
    Ok(Call::Discard { name })
}

#[tactic(auto, unfolding(crate::specs::Reading::drop_at))]
fn give_up(cursor: &mut Cursor<'_>) -> Result<Call, Halt>
    ensures { Gives result cursor.new (drop_at cursor.old) }
{
    let token = cursor.long()?;
    Ok(Call::Drop { token })
}

// The calls that say nothing but their names.
#[tactic(auto, unfolding(crate::specs::Reading::plain_call_at))]
fn plain_call(cursor: &mut Cursor<'_>) -> Result<Call, Halt>
    ensures { Gives result cursor.new (plain_call_at cursor.old) }
{
    let found = plain_call_of(cursor.key());
    cursor.named(Wanted::Call, found)
}

// The calls on VCLs and backends, and those that are plain.
#[tactic(auto, unfolding(crate::specs::Reading::vcl_call_at))]
fn vcl_call(cursor: &mut Cursor<'_>, alloc: Global) -> Result<Call, Halt>
    ensures { Gives result cursor.new (vcl_call_at cursor.old) }
{
    let key = cursor.key();
    if key == b"health".as_slice() {
        cursor.skip();
        set_health(cursor)
    } else if key == b"load".as_slice() {
        cursor.skip();
        load(cursor, alloc)
    } else if key == b"switch".as_slice() {
        cursor.skip();
        switch(cursor)
    } else if key == b"discard".as_slice() {
        cursor.skip();
        discard(cursor)
    } else {
        plain_call(cursor)
    }
}

// The calls on keys and bans, and those before.
#[tactic(auto, unfolding(crate::specs::Reading::key_call_at))]
fn key_call(cursor: &mut Cursor<'_>, alloc: Global) -> Result<Call, Halt>
    ensures { Gives result cursor.new (key_call_at cursor.old) }
{
    let key = cursor.key();
    if key == b"ban".as_slice() {
        cursor.skip();
        ban(cursor, alloc)
    } else if key == b"purge".as_slice() {
        cursor.skip();
        purge(cursor, alloc)
    } else if key == b"xkey".as_slice() {
        cursor.skip();
        xkey(cursor, alloc)
    } else if key == b"drop".as_slice() {
        cursor.skip();
        give_up(cursor)
    } else {
        vcl_call(cursor, alloc)
    }
}

/// A call; a ban without its conditions.
#[tactic(auto, unfolding(crate::specs::Reading::call_at))]
pub(crate) fn call(cursor: &mut Cursor<'_>, alloc: Global) -> Result<Call, Halt>
    ensures { Gives result cursor.new (call_at cursor.old) }
{
    let key = cursor.key();
    if key == b"lookup".as_slice() {
        cursor.skip();
        lookup(cursor, alloc)
    } else if key == b"pick".as_slice() {
        cursor.skip();
        pick(cursor, alloc)
    } else if key == b"insert".as_slice() {
        cursor.skip();
        insert(cursor, alloc)
    } else {
        key_call(cursor, alloc)
    }
}
