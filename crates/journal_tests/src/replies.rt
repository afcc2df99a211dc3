// What a line says of replies.
use crate::made::{side, text, texts, view};
use cache_law::{Ban, BanLine, Call, Issued, Reply, VclLine, VclState};
use std::alloc::{AllocError, Global};
use units::{Sequence, Shared};

pub fn said(alloc: Global, name: &str) -> Result<String, AllocError> {
    match name {
        "grace" => say(
            alloc,
            Reply::Grace {
                object: view(alloc)?,
                token: None,
            },
        ),
        "stale" => say(
            alloc,
            Reply::Miss {
                token: 7,
                stale: Some(view(alloc)?),
            },
        ),
        "unpicked" => say(alloc, Reply::Picked(None)),
        "set" => say(alloc, Reply::HealthSet(true)),
        "loaded" => say(alloc, Reply::Loaded(4_294_967_295)),
        "purged" => say(alloc, Reply::Purged(18_446_744_073_709_551_615)),
        "bans" => bans(alloc),
        "vcls" => vcls(alloc),
        _ => String::from_str(alloc, "no such reply"),
    }
}

fn say(alloc: Global, reply: Reply) -> Result<String, AllocError> {
    side(alloc, Call::End, reply, true)
}

fn bans(alloc: Global) -> Result<String, AllocError> {
    let ban = Ban {
        words: texts(alloc, &["req.url", "==", "/a"])?,
        conditions: Sequence::new(alloc),
    };
    let issued = Issued {
        number: 9,
        moment: 5,
        ban: Shared::new(alloc, ban)?,
    };
    let mut lines = Vec::new(alloc);
    lines.push(BanLine {
        issued: issued.copy()?,
        completed: false,
    })?;
    lines.push(BanLine {
        issued,
        completed: true,
    })?;
    say(alloc, Reply::Bans(Sequence::from_vec(lines)))
}

fn vcls(alloc: Global) -> Result<String, AllocError> {
    let mut lines = Vec::new(alloc);
    lines.push(VclLine {
        state: VclState::Available,
        references: 1,
        name: text(alloc, "boot")?,
    })?;
    lines.push(VclLine {
        state: VclState::Active,
        references: 0,
        name: text(alloc, "new one")?,
    })?;
    say(alloc, Reply::Vcls(Sequence::from_vec(lines)))
}
