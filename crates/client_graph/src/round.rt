// A round, its states, and where it rests.
use cache_law::rounds::{Order, Request};
use cache_law::{Call, ObjectView, Query};
use delivery::{Delivery, ResponseBody};
use units::Shared;
use vcl_context::Context;

/// What a round keeps beside what its subroutines work on.
#[derive(Drop)]
pub struct Round {
    /// Its number, and the number of its VCL.
    pub number: u64,
    pub vcl: u32,
    /// The client's address.
    pub peer: [u8; 4],
    /// The request as it came.
    pub asked: Request,
    /// How often it was restarted, at most 4 times.
    pub restarts: u32,
    /// The fetch that is made behind the response.
    pub background: Option<HeldFetch>,
}

/// An open fetch that the round holds, by its token.
#[derive(Drop)]
pub struct HeldFetch {
    pub token: u64,
    /// The lookup that opened it, and its moment in milliseconds since 1970.
    pub query: Shared<Query>,
    pub moment: u64,
    /// The object that the backend may confirm.
    pub stale: Option<ObjectView>,
}

/// An object that was found.
#[derive(Drop)]
pub struct FoundObject {
    pub view: ObjectView,
    /// The moment of the lookup, in milliseconds since 1970.
    pub moment: u64,
    /// The fetch of a newer one, where it was told to make one.
    pub held: Option<HeldFetch>,
}

/// What a key is made for.
#[derive(Clone, Copy, Debug, PartialEq, Eq)]
pub enum KeyUse {
    Lookup,
    Purge,
}

/// A state in which a subroutine runs.
#[derive(Drop)]
pub enum State {
    Recv,
    Hash(KeyUse),
    Purge,
    Hit(FoundObject),
    Miss(HeldFetch),
    Pass,
    /// The body is that of the object that is delivered.
    Deliver(ResponseBody),
    Synth,
}

/// What is fetched.
#[derive(Drop)]
pub enum FetchKind {
    /// What may be stored.
    Store(HeldFetch),
    /// The response to a request that is passed, under the number that was drawn at the moment.
    Pass { number: u64, moment: u64 },
}

/// A place between subroutines, where something is wanted.
#[derive(Drop)]
pub enum WaitPoint {
    /// It looks the key up, again and again while it is told to wait.
    Look {
        query: Shared<Query>,
        context: Context,
    },
    /// It purges the key.
    Purge {
        context: Context,
    },
    /// It gives up a fetch, and goes on in a state.
    Drop {
        token: u64,
        state: State,
        context: Context,
    },
    /// It draws the number of a fetch.
    Draw {
        context: Context,
    },
    Fetch {
        kind: FetchKind,
        context: Context,
    },
    /// It sends the response that VCL made, with this body.
    Send {
        context: Context,
        body: ResponseBody,
    },
    /// It sends the page of a failed vcl_synth.
    Fail {
        context: Context,
    },
    /// It fetches behind the response.
    Background {
        held: HeldFetch,
        context: Context,
    },
    End,
    Over,
}

/// What comes next.
#[derive(Drop)]
pub enum Next {
    /// The subroutine of the state runs.
    Enter {
        state: State,
        context: Context,
        round: Round,
    },
    /// The round rests.
    Rest {
        point: WaitPoint,
        round: Round,
    },
}

/// What a client wants.
#[derive(Drop)]
pub enum ClientWant {
    /// A call of the cache.
    Cache(Call),
    /// A fetch, whose response it waits for.
    Fetch(Order),
    /// That its response is sent.
    Send(Delivery),
    /// A fetch behind the response.
    Background(Order),
    /// Nothing more.
    Done,
}
