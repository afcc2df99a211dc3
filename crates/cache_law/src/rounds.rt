//! What goes between the states of a round: the client's request, the fetch that it orders, and what a client or a fetch is
//! given.
use crate::{ObjectView, Query, Told};
use directors::Target;
use http_heads::{Got, RequestHead};
use units::{Shared, Text};

/// What a round begins with: a whole message.
#[derive(Drop)]
pub struct Request {
    pub head: RequestHead,
    pub body: Text,
}

/// A fetch that a client asks for.
#[derive(Drop)]
pub struct Order {
    /// The fetch's number: that of its lookup's token, or the one that was drawn for it.
    pub number: u64,
    /// The number of the round's VCL, and the address of the round's client.
    pub vcl: u32,
    pub peer: [u8; 4],
    /// The client's request as VCL left it. Its body is sent on, and is empty where the response may be stored.
    pub request: Request,
    /// Where the request is to be sent to, unless VCL says otherwise, and the text that a hash director was asked with,
    /// which is empty where there is none.
    pub hint: Option<Target>,
    pub hint_text: Text,
    /// What was looked up. None where the request is passed, so that the response isn't stored.
    pub looked: Option<Shared<Query>>,
    /// The object that the backend may confirm.
    pub stale: Option<ObjectView>,
    /// Whether the client has its response already.
    pub background: bool,
    /// When it began, in milliseconds since 1970: the moment of the lookup, or of the drawing of its number.
    pub moment: u64,
}

/// What came of a fetch.
#[derive(Drop)]
pub enum FetchOutcome {
    /// The response. The moment is that of its insertion or, where it isn't inserted, the fetch's.
    Delivered {
        object: ObjectView,
        moment: u64,
        /// Whether the request was passed, or the cache keeps a marker in place of the response.
        uncacheable: bool,
    },
    /// There is none.
    Failed,
    /// It was a fetch behind the response, and is over.
    Ended,
}

/// What a client or a fetch is given.
#[derive(Drop)]
pub enum Given {
    /// It begins.
    Start,
    /// Its call was answered.
    Reply(Told),
    /// Its exchange with a backend is over.
    Exchange(Got),
    /// Its fetch is over.
    Fetched(FetchOutcome),
    /// Its response was sent.
    Sent,
}
