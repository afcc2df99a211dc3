// What a journal shows of a reply.
use cache_law::VclLine;
use units::{Sequence, Text};

/// A line of a list of bans: the number of a ban, and whether a later equal one does its work.
#[derive(Clone, Copy, Debug)]
pub struct ShownBan {
    pub number: u64,
    pub completed: bool,
}

/// What a journal says of a reply: objects and bans by their numbers, and not the text of a round's VCL, all of which are
/// known from what stands before it.
#[derive(Drop)]
pub enum Shown {
    Began { number: u64, vcl: u32 },
    NoRound,
    Drawn(u64),
    Hit(u64),
    HitMiss(u64),
    HitPass,
    Grace { number: u64, token: Option<u64> },
    Wait(u64),
    Miss { token: u64, stale: Option<u64> },
    Picked(Option<Text>),
    Stored(u64),
    NotOpen,
    StaleGone,
    NotInTime,
    NoRoom,
    Refused,
    Banned,
    Bans(Sequence<ShownBan>),
    Purged(u64),
    HealthSet(bool),
    Loaded(u32),
    NameTaken,
    Switched,
    NoVcl,
    Discarded,
    IsActive,
    Vcls(Sequence<VclLine>),
    Dropped,
    Ended,
}
