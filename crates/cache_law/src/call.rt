// The calls of a cache, its replies, and an entry of its history.
use crate::{Ban, BanLine, Health, Object, ObjectView, VclLine, VclSource};
use directors::Target;
use http_heads::Fields;
use std::alloc::{AllocError, Global};
use units::{Copied, Sequence, Shared, Text};

/// What a lookup carries beside its key: the request as the policy left it.
#[derive(Drop)]
pub struct RequestView {
    pub url: Text,
    pub fields: Fields,
}

/// How a lookup is to go. The numbers lessen an object's own, in milliseconds.
#[derive(Clone, Copy, Debug)]
pub struct Options {
    /// No object is looked at.
    pub always_miss: bool,
    /// No open fetch is waited for.
    pub ignore_busy: bool,
    /// Each object of the key matches the request.
    pub ignore_vary: bool,
    pub ttl: Option<i64>,
    pub grace: Option<i64>,
}

impl Options {
    /// A lookup by an object's own numbers, which waits for open fetches.
    pub const PLAIN: Options = Options {
        always_miss: false,
        ignore_busy: false,
        ignore_vary: false,
        ttl: None,
        grace: None,
    };
}

/// What a lookup asks for.
#[derive(Drop)]
pub struct Query {
    /// The texts that `hash_data` was given, in order.
    pub key: Sequence<Text>,
    pub request: RequestView,
    pub options: Options,
}

/// A call of the cache. What is large in one stands behind a pointer, so that an entry is small.
#[derive(Drop)]
pub enum Call {
    /// Opens a round of the caller under the active VCL.
    Begin,
    /// Draws a number for a fetch of the caller's round that isn't stored.
    Draw,
    /// Asks for an object of the key.
    Lookup(Shared<Query>),
    /// Asks which member of the target a request goes to, under the VCL of this number. The word is what a director of kind
    /// random or hash chooses by.
    Pick {
        vcl: u32,
        target: Shared<Target>,
        word: u64,
    },
    /// Hands over the object that the fetch of this number made. It takes the place of the object numbered `stale`,
    /// where that is given.
    Insert {
        token: u64,
        object: Shared<Object>,
        stale: Option<u64>,
    },
    /// Bans objects: at once those that a ban on objects alone matches, else each object at its next lookups.
    Ban(Shared<Ban>),
    /// Asks for the bans that may still match.
    BanList,
    /// Removes the objects and markers of the key.
    Purge {
        key: Sequence<Text>,
    },
    /// Removes the objects that have at least one of these xkeys or, where it is soft, ends their lifetime.
    Xkey {
        keys: Sequence<Text>,
        soft: bool,
    },
    /// Sets the health of a backend of the active VCL.
    SetHealth {
        backend: Text,
        health: Health,
    },
    /// Loads a VCL.
    Load(Shared<VclSource>),
    /// Makes the VCL of this name the active one.
    Switch {
        name: Text,
    },
    /// Gives up the VCL of this name. It lives on until the last round under it ends.
    Discard {
        name: Text,
    },
    /// Asks for the VCLs.
    VclList,
    /// Gives up the fetch of this number.
    Drop {
        token: u64,
    },
    /// Closes the caller's round and its open fetches.
    End,
}

/// What the cache answers to a call. Each token is the number of a fetch that is open for the caller.
#[derive(Drop)]
pub enum Reply {
    /// The round's number, the number of its VCL, and that VCL's text.
    Began {
        number: u64,
        vcl: u32,
        text: Text,
    },
    /// The caller's round was open already (at Begin), or isn't open.
    NoRound,
    /// The number that was drawn.
    Drawn(u64),
    /// An object that is fresh, with this hit counted.
    Hit(ObjectView),
    /// A marker that is fresh says that the response may be stored.
    HitMiss {
        token: u64,
    },
    /// A marker that is fresh says that the request is passed.
    HitPass,
    /// An object that isn't fresh any more, with this hit counted. The token is there where no fetch of the key was open.
    Grace {
        object: ObjectView,
        token: Option<u64>,
    },
    /// The fetch of this number, of another caller or of this one, is open for the key.
    Wait(u64),
    /// There is none. The stale object is one that the backend may confirm.
    Miss {
        token: u64,
        stale: Option<ObjectView>,
    },
    /// The member that was chosen. None where none is healthy.
    Picked(Option<Text>),
    /// The object stands under the number of its fetch.
    Stored(u64),
    /// There is no open fetch of this number and caller.
    NotOpen,
    /// The stale object isn't in time, or isn't there any more. The fetch stays open.
    StaleGone,
    /// The object's time is over. The fetch is closed.
    NotInTime,
    /// The objects in time leave no room for it. The fetch is closed.
    NoRoom,
    /// Memory was wanting: the one answer that the law leaves free. The fetch is closed.
    Refused,
    /// The ban is issued.
    Banned,
    /// Bans that were issued, newest first.
    Bans(Sequence<BanLine>),
    /// How many objects were removed, or had their lifetime ended.
    Purged(u64),
    /// Whether the active VCL has a backend of the name. Where it hasn't, nothing is set.
    HealthSet(bool),
    /// The VCL is loaded under this number.
    Loaded(u32),
    /// A VCL that isn't discarded has the name.
    NameTaken,
    /// The VCL is active.
    Switched,
    /// No VCL that isn't discarded has the name.
    NoVcl,
    /// The VCL is discarded.
    Discarded,
    /// The VCL is the active one, which can't be discarded.
    IsActive,
    /// The VCLs, in the order in which they were loaded.
    Vcls(Sequence<VclLine>),
    /// The fetch is closed.
    Dropped,
    /// The round is closed.
    Ended,
}

/// One call with its answer, as the history keeps it.
#[derive(Drop)]
pub struct Entry {
    pub caller: u32,
    /// In milliseconds since 1970. It is never less than that of the entry before.
    pub moment: u64,
    pub call: Call,
    pub reply: Reply,
}

impl Copied for Reply {
    fn copied(&self, alloc: Global) -> Result<Self, AllocError> {
        match self {
            Reply::Began { number, vcl, text } => Ok(Reply::Began {
                number: *number,
                vcl: *vcl,
                text: text.copy()?,
            }),
            Reply::NoRound => Ok(Reply::NoRound),
            Reply::Drawn(number) => Ok(Reply::Drawn(*number)),
            Reply::Hit(view) => Ok(Reply::Hit(view.copy()?)),
            Reply::HitMiss { token } => Ok(Reply::HitMiss { token: *token }),
            Reply::HitPass => Ok(Reply::HitPass),
            Reply::Grace { object, token } => Ok(Reply::Grace {
                object: object.copy()?,
                token: *token,
            }),
            Reply::Wait(token) => Ok(Reply::Wait(*token)),
            Reply::Miss { token, stale: None } => Ok(Reply::Miss {
                token: *token,
                stale: None,
            }),
            Reply::Miss {
                token,
                stale: Some(view),
            } => Ok(Reply::Miss {
                token: *token,
                stale: Some(view.copy()?),
            }),
            Reply::Picked(None) => Ok(Reply::Picked(None)),
            Reply::Picked(Some(name)) => Ok(Reply::Picked(Some(name.copy()?))),
            Reply::Stored(number) => Ok(Reply::Stored(*number)),
            Reply::NotOpen => Ok(Reply::NotOpen),
            Reply::StaleGone => Ok(Reply::StaleGone),
            Reply::NotInTime => Ok(Reply::NotInTime),
            Reply::NoRoom => Ok(Reply::NoRoom),
            Reply::Refused => Ok(Reply::Refused),
            Reply::Banned => Ok(Reply::Banned),
            Reply::Bans(lines) => Ok(Reply::Bans(lines.copied(alloc)?)),
            Reply::Purged(count) => Ok(Reply::Purged(*count)),
            Reply::HealthSet(is_set) => Ok(Reply::HealthSet(*is_set)),
            Reply::Loaded(number) => Ok(Reply::Loaded(*number)),
            Reply::NameTaken => Ok(Reply::NameTaken),
            Reply::Switched => Ok(Reply::Switched),
            Reply::NoVcl => Ok(Reply::NoVcl),
            Reply::Discarded => Ok(Reply::Discarded),
            Reply::IsActive => Ok(Reply::IsActive),
            Reply::Vcls(lines) => Ok(Reply::Vcls(lines.copied(alloc)?)),
            Reply::Dropped => Ok(Reply::Dropped),
            Reply::Ended => Ok(Reply::Ended),
        }
    }
}
