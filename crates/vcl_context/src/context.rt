// The values that a subroutine works on.
use http_heads::{RequestHead, ResponseHead};
use units::{Sequence, Text};
use vcl_values::Backend;

/// The values of all variables, and what a subroutine makes beside them. Variables that a subroutine may not read have
/// values too.
#[derive(Drop)]
pub struct Context {
    pub peer: Peer,
    /// `req`
    pub request: ClientRequest,
    /// `obj`
    pub object: CachedObject,
    /// `bereq`
    pub fetch_request: FetchRequest,
    /// `beresp`
    pub fetch_response: FetchResponse,
    /// `resp`
    pub response: ResponseHead,
    /// The texts of the key, in the order in which they were given.
    pub key: Sequence<Text>,
    /// The body that was made, if one was.
    pub body: Option<Text>,
    /// The jar of cookies, as the functions on it write it; empty at first.
    pub jar: Text,
    /// How many statements were run.
    pub statements: u32,
}

/// `client`.
#[derive(Drop)]
pub struct Peer {
    pub address: [u8; 4],
    pub identity: Text,
}

/// `req`: a client's request with its options. Times are in milliseconds.
#[derive(Drop)]
pub struct ClientRequest {
    pub head: RequestHead,
    pub restarts: i64,
    /// None while it isn't set, as for grace.
    pub ttl: Option<i64>,
    pub grace: Option<i64>,
    pub backend_hint: Option<Backend>,
    pub hash_always_miss: bool,
    pub hash_ignore_busy: bool,
    pub hash_ignore_vary: bool,
    pub is_hitmiss: bool,
    pub is_hitpass: bool,
}

/// `obj`: an object of the cache. Times are in milliseconds.
#[derive(Drop)]
pub struct CachedObject {
    pub head: ResponseHead,
    pub hits: i64,
    pub uncacheable: bool,
    pub ttl: i64,
    pub age: i64,
    pub grace: i64,
    pub keep: i64,
}

/// `bereq`: a request to a backend.
#[derive(Drop)]
pub struct FetchRequest {
    pub head: RequestHead,
    pub backend: Option<Backend>,
    pub retries: i64,
    pub uncacheable: bool,
    pub is_bgfetch: bool,
}

/// `beresp`: a backend's response. Times are in milliseconds.
#[derive(Drop)]
pub struct FetchResponse {
    pub head: ResponseHead,
    pub ttl: i64,
    pub grace: i64,
    pub keep: i64,
    pub uncacheable: bool,
    pub age: i64,
    pub was_304: bool,
    pub backend: Option<Backend>,
}
