// What is shown of replies.
ghost use Rattle.std.specs.Prelude.{◌≡◌};
ghost use Rattle.journal_reader.specs.Reading.{Gives, bans_at, began_at, grace_at, is_set_at, loaded_at, miss_at, numbered_at, numbered_kind_at, numbered_of as numbered_made, picked_at, plain_reply_at, reply_at, vcl_reply_at, vcls_at};

use crate::cursor::Cursor;
use crate::fault::{Halt, Wanted};
use crate::items::list;
use crate::keys::{NumberedReply, numbered_kind_of, plain_of};
use journal_text::Shown;
use std::alloc::Global;

#[tactic(auto, unfolding(crate::specs::Reading::numbered_of))]
fn numbered_of(kind: NumberedReply, number: u64) -> Shown
    ensures { result ≡ numbered_made kind number }
{
    match kind {
        NumberedReply::Drawn => Shown::Drawn(number),
        NumberedReply::Hit => Shown::Hit(number),
        NumberedReply::HitMiss => Shown::HitMiss(number),
        NumberedReply::Wait => Shown::Wait(number),
        NumberedReply::Stored => Shown::Stored(number),
        NumberedReply::Purged => Shown::Purged(number),
    }
}

#[tactic(auto, unfolding(crate::specs::Reading::numbered_kind_at))]
fn numbered_kind(cursor: &mut Cursor<'_>) -> Result<NumberedReply, Halt>
    ensures { Gives result cursor.new (numbered_kind_at cursor.old) }
{
    let found = numbered_kind_of(cursor.key());
    cursor.named(Wanted::Reply, found)
}

// The replies of one number.
#[tactic(auto, unfolding(crate::specs::Reading::numbered_at))]
fn numbered(cursor: &mut Cursor<'_>) -> Result<Shown, Halt>
    ensures { Gives result cursor.new (numbered_at cursor.old) }
{
    let kind = numbered_kind(cursor)?;
    let number = cursor.long()?;
    Ok(numbered_of(kind, number))
}

#[tactic(auto, unfolding(crate::specs::Reading::began_at))]
fn began(cursor: &mut Cursor<'_>) -> Result<Shown, Halt>
    ensures { Gives result cursor.new (began_at cursor.old) }
{
    let number = cursor.long()?;
    let vcl = cursor.middle()?;
    Ok(Shown::Began { number, vcl })
}

#[tactic(auto, unfolding(crate::specs::Reading::grace_at))]
fn grace(cursor: &mut Cursor<'_>) -> Result<Shown, Halt>
    ensures { Gives result cursor.new (grace_at cursor.old) }
{
    let number = cursor.long()?;
    let token = cursor.number_or_absent()?;
    Ok(Shown::Grace { number, token })
}

#[tactic(auto, unfolding(crate::specs::Reading::miss_at))]
fn miss(cursor: &mut Cursor<'_>) -> Result<Shown, Halt>
    ensures { Gives result cursor.new (miss_at cursor.old) }
{
    let token = cursor.long()?;
    let stale = cursor.number_or_absent()?;
    Ok(Shown::Miss { token, stale })
}

#[tactic(auto, unfolding(crate::specs::Reading::picked_at))]
fn picked(cursor: &mut Cursor<'_>) -> Result<Shown, Halt>
    ensures { Gives result cursor.new (picked_at cursor.old) }
{
    let name = cursor.text_or_absent()?;
    Ok(Shown::Picked(name))
}

#[tactic(auto, unfolding(crate::specs::Reading::bans_at))]
fn bans(cursor: &mut Cursor<'_>, alloc: Global) -> Result<Shown, Halt>
    ensures { Gives result cursor.new (bans_at cursor.old) }
{
    let bans = list(cursor, alloc)?;
    Ok(Shown::Bans(bans))
}

#[tactic(auto, unfolding(crate::specs::Reading::is_set_at))]
fn is_set(cursor: &mut Cursor<'_>) -> Result<Shown, Halt>
    ensures { Gives result cursor.new (is_set_at cursor.old) }
{
    let is_set = cursor.truth()?;
    Ok(Shown::HealthSet(is_set))
}

#[tactic(auto, unfolding(crate::specs::Reading::loaded_at))]
fn loaded(cursor: &mut Cursor<'_>) -> Result<Shown, Halt>
    ensures { Gives result cursor.new (loaded_at cursor.old) }
{
    let number = cursor.middle()?;
    Ok(Shown::Loaded(number))
}

#[tactic(auto, unfolding(crate::specs::Reading::vcls_at))]
fn vcls(cursor: &mut Cursor<'_>, alloc: Global) -> Result<Shown, Halt>
    ensures { Gives result cursor.new (vcls_at cursor.old) }
{
    let lines = list(cursor, alloc)?;
    Ok(Shown::Vcls(lines))
}

// The replies that say nothing but their names, and those of one number.
#[tactic(auto, unfolding(crate::specs::Reading::plain_reply_at))]
fn plain_reply(cursor: &mut Cursor<'_>) -> Result<Shown, Halt>
    ensures { Gives result cursor.new (plain_reply_at cursor.old) }
{
    match plain_of(cursor.key()) {
        Some(reply) => {
            cursor.skip();
            Ok(reply)
        }
        None => numbered(cursor),
    }
}

// The replies of lists and of VCLs, and those before.
#[tactic(auto, unfolding(crate::specs::Reading::vcl_reply_at))]
fn vcl_reply(cursor: &mut Cursor<'_>, alloc: Global) -> Result<Shown, Halt>
    ensures { Gives result cursor.new (vcl_reply_at cursor.old) }
{
    let key = cursor.key();
    if key == b"bans".as_slice() {
        cursor.skip();
        bans(cursor, alloc)
    } else if key == b"healthset".as_slice() {
        cursor.skip();
        is_set(cursor)
    } else if key == b"loaded".as_slice() {
        cursor.skip();
        loaded(cursor)
    } else if key == b"vcls".as_slice() {
        cursor.skip();
        vcls(cursor, alloc)
    } else {
        plain_reply(cursor)
    }
}

/// What is shown of a reply.
#[tactic(auto, unfolding(crate::specs::Reading::reply_at))]
pub(crate) fn reply(cursor: &mut Cursor<'_>, alloc: Global) -> Result<Shown, Halt>
    ensures { Gives result cursor.new (reply_at cursor.old) }
{
    let key = cursor.key();
    if key == b"began".as_slice() {
        cursor.skip();
        began(cursor)
    } else if key == b"grace".as_slice() {
        cursor.skip();
        grace(cursor)
    } else if key == b"miss".as_slice() {
        cursor.skip();
        miss(cursor)
    } else if key == b"picked".as_slice() {
        cursor.skip();
        picked(cursor)
    } else {
        vcl_reply(cursor, alloc)
    }
}
