// Replies in words and numbers.
use cache_law::{BanLine, Entry, Reply, VclLine, VclState};
use std::alloc::{AllocError, Global};

/// What was answered, with its numbers.
pub type Shown = (&'static str, u64, u64);

fn first_byte(text: &[u8]) -> u64 {
    match text {
        [first, ..] => u64::from(*first),
        [] => 0,
    }
}

// The states of VCLs as the digits of a number, and their references as those of another.
fn shown_vcls(lines: &[VclLine]) -> (u64, u64) {
    let mut states: u64 = 0;
    let mut references: u64 = 0;
    for line in lines {
        let state = match line.state {
            VclState::Active => 1,
            VclState::Available => 2,
            VclState::Discarded => 3,
        };
        states = states.wrapping_mul(10).wrapping_add(state);
        references = references.wrapping_mul(10).wrapping_add(line.references);
    }
    (states, references)
}

// How many lines there are, and the number of the newest ban.
fn shown_bans(lines: &[BanLine]) -> Shown {
    match lines {
        [newest, ..] => ("bans", lines.len() as u64, newest.issued.number),
        [] => ("bans", 0, 0),
    }
}

/// What was answered, with its numbers: of a list of bans, how many lines it has and the number of the newest; of a hit, that of the object and the hits; of an object in grace its number and
/// the token; of a miss the token and the number of the stale object.
pub fn shown(reply: &Reply) -> Shown {
    match reply {
        Reply::Began { number, vcl, .. } => ("began", *number, u64::from(*vcl)),
        Reply::NoRound => ("no round", 0, 0),
        Reply::Drawn(number) => ("drawn", *number, 0),
        Reply::Hit(view) => ("hit", view.number, view.hits),
        Reply::HitMiss { token } => ("hit miss", *token, 0),
        Reply::HitPass => ("hit pass", 0, 0),
        Reply::Grace {
            object,
            token: Some(token),
        } => ("grace", object.number, *token),
        Reply::Grace {
            object,
            token: None,
        } => ("grace", object.number, 0),
        Reply::Wait(token) => ("wait", *token, 0),
        Reply::Miss {
            token,
            stale: Some(view),
        } => ("miss", *token, view.number),
        Reply::Miss { token, stale: None } => ("miss", *token, 0),
        Reply::Picked(None) => ("picked none", 0, 0),
        Reply::Banned => ("banned", 0, 0),
        Reply::Bans(lines) => shown_bans(lines.as_slice()),
        Reply::Purged(count) => ("purged", *count, 0),
        Reply::HealthSet(set) => ("health set", u64::from(*set), 0),
        Reply::Loaded(number) => ("loaded", u64::from(*number), 0),
        Reply::NameTaken => ("name taken", 0, 0),
        Reply::Switched => ("switched", 0, 0),
        Reply::NoVcl => ("no vcl", 0, 0),
        Reply::Discarded => ("discarded", 0, 0),
        Reply::IsActive => ("is active", 0, 0),
        Reply::Vcls(lines) => {
            let (states, references) = shown_vcls(lines.as_slice());
            ("vcls", states, references)
        }
        Reply::Picked(Some(name)) => ("picked", first_byte(name.bytes()), 0),
        Reply::Stored(number) => ("stored", *number, 0),
        Reply::NotOpen => ("not open", 0, 0),
        Reply::StaleGone => ("stale gone", 0, 0),
        Reply::NotInTime => ("not in time", 0, 0),
        Reply::NoRoom => ("no room", 0, 0),
        Reply::Refused => ("refused", 0, 0),
        Reply::Dropped => ("dropped", 0, 0),
        Reply::Ended => ("ended", 0, 0),
    }
}

/// How many entries there are, and each behind a line end, which is written as `\n`.
pub fn history_shown(alloc: Global, history: &[Entry]) -> Result<String, AllocError> {
    let mut out = format!(in alloc; "{}", history.len())?;
    for entry in history {
        push_entry(&mut out, entry)?;
    }
    Ok(out)
}

fn push_entry(out: &mut String, entry: &Entry) -> Result<(), AllocError> {
    let (word, first, second) = shown(&entry.reply);
    let (caller, moment) = (entry.caller, entry.moment);
    write!(out, "\\n{caller} {moment} {word} {first} {second}")
}
