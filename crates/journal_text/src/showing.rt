// What is shown of a reply.
ghost use Rattle.std.specs.Prelude.{◌≡◌, map, IfOk};
ghost use Rattle.journal_text.specs.Grammar.{number_of, shown_ban as shown_line, shown_of};

use crate::{Shown, ShownBan};
use cache_law::{BanLine, ObjectView, Reply};
use std::alloc::{AllocError, Global};
use units::{Copied, Sequence, Text};

fn shown_ban(line: &BanLine) -> ShownBan
    ensures { result ≡ shown_line line.now }
{
    ShownBan {
        number: line.issued.number,
        completed: line.completed,
    }
}

fn shown_bans(alloc: Global, lines: &[BanLine]) -> Result<Vec<ShownBan>, AllocError>
    ensures { IfOk result (λ bans. bans.items ≡ map shown_line lines.now) }
{
    let mut bans = Vec::with_capacity(alloc, lines.len())?;
    for line in lines {
        bans.push(shown_ban(line))?;
    }
    Ok(bans)
}

fn number_in(view: &Option<ObjectView>) -> Option<u64>
    ensures { result ≡ number_of view.now }
{
    match view {
        Some(view) => Some(view.number),
        None => None,
    }
}

fn copy_of(name: &Option<Text>) -> Result<Option<Text>, AllocError>
    ensures { IfOk result (λ copy. copy ≡ name.now) }
{
    match name {
        Some(name) => Ok(Some(name.copy()?)),
        None => Ok(None),
    }
}

/// What a journal shows of a reply.
pub fn show(alloc: Global, reply: &Reply) -> Result<Shown, AllocError>
    ensures { IfOk result (λ shown. shown ≡ shown_of reply.now) }
{
    Ok(match reply {
        Reply::Began { number, vcl, .. } => Shown::Began {
            number: *number,
            vcl: *vcl,
        },
        Reply::NoRound => Shown::NoRound,
        Reply::Drawn(number) => Shown::Drawn(*number),
        Reply::Hit(view) => Shown::Hit(view.number),
        Reply::HitMiss { token } => Shown::HitMiss(*token),
        Reply::HitPass => Shown::HitPass,
        Reply::Grace { object, token } => Shown::Grace {
            number: object.number,
            token: *token,
        },
        Reply::Wait(token) => Shown::Wait(*token),
        Reply::Miss { token, stale } => Shown::Miss {
            token: *token,
            stale: number_in(stale),
        },
        Reply::Picked(name) => Shown::Picked(copy_of(name)?),
        Reply::Stored(number) => Shown::Stored(*number),
        Reply::NotOpen => Shown::NotOpen,
        Reply::StaleGone => Shown::StaleGone,
        Reply::NotInTime => Shown::NotInTime,
        Reply::NoRoom => Shown::NoRoom,
        Reply::Refused => Shown::Refused,
        Reply::Banned => Shown::Banned,
        Reply::Bans(lines) => {
            Shown::Bans(Sequence::from_vec(shown_bans(alloc, lines.as_slice())?))
        }
        Reply::Purged(count) => Shown::Purged(*count),
        Reply::HealthSet(is_set) => Shown::HealthSet(*is_set),
        Reply::Loaded(number) => Shown::Loaded(*number),
        Reply::NameTaken => Shown::NameTaken,
        Reply::Switched => Shown::Switched,
        Reply::NoVcl => Shown::NoVcl,
        Reply::Discarded => Shown::Discarded,
        Reply::IsActive => Shown::IsActive,
        Reply::Vcls(lines) => Shown::Vcls(lines.copied(alloc)?),
        Reply::Dropped => Shown::Dropped,
        Reply::Ended => Shown::Ended,
    })
}
