// A fetch, its states, and where it rests.
use cache_law::rounds::{FetchOutcome, Order};
use cache_law::{Call, Object, Response};
use http_heads::BackendRequest;
use units::{Shared, Text};
use vcl_context::Context;

/// What a fetch keeps beside what its subroutines work on.
#[derive(Drop)]
pub struct Fetch {
    pub order: Order,
    /// When it came to what it knows, in milliseconds since 1970: with its newest exchange, pick, or beginning.
    pub moment: u64,
    /// How often it was tried again, at most 4 times.
    pub retries: u32,
    /// The backend that was picked last.
    pub picked: Option<Text>,
}

/// A response that arrived, beside what VCL works on.
#[derive(Drop)]
pub struct Arrived {
    pub body: Text,
    /// When it was made, in milliseconds since 1970.
    pub origin: i64,
}

/// A state in which a subroutine runs.
#[derive(Drop)]
pub enum State {
    /// vcl_backend_fetch.
    Request,
    /// vcl_backend_response.
    Response(Arrived),
    /// vcl_backend_error, whose response was made at the origin.
    Error { origin: i64 },
}

/// What is kept of a response.
#[derive(Clone, Copy, Debug, PartialEq, Eq)]
pub enum StoreAs {
    Whole,
    /// That requests of the key fetch each for itself.
    HitForMiss,
    /// That requests of the key are passed, for so many milliseconds.
    HitForPass(i64),
}

/// What is handed to the cache, and what is delivered whether it is stored or not.
#[derive(Drop)]
pub struct Insertion {
    pub object: Shared<Object>,
    pub delivered: Shared<Object>,
    /// Whether a marker is handed over in place of the response.
    pub is_marker: bool,
    /// The number of the object that the backend confirmed.
    pub stale: Option<u64>,
}

/// A place between subroutines, where something is wanted.
#[derive(Drop)]
pub enum WaitPoint {
    /// It has a backend picked.
    Pick {
        context: Context,
    },
    /// It asks the backend that was picked.
    Ask {
        context: Context,
    },
    /// It hands over what it made.
    Insert {
        insertion: Insertion,
        context: Context,
    },
    /// It is given up.
    Drop,
    /// It is over.
    Over(FetchOutcome),
}

/// What comes next.
#[derive(Drop)]
pub enum Next {
    /// The subroutine of the state runs.
    Enter {
        state: State,
        context: Context,
        fetch: Fetch,
    },
    /// The fetch rests.
    Rest {
        point: WaitPoint,
        fetch: Fetch,
    },
}

/// What a fetch wants.
#[derive(Drop)]
pub enum FetchWant {
    /// A call of the cache.
    Cache(Call),
    /// An exchange with the backend of this name.
    Ask {
        backend: Text,
        request: BackendRequest,
    },
    /// Nothing more.
    Done(FetchOutcome),
}
