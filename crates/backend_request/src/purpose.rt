// What a fetch is for.

/// What a fetch is for.
#[derive(Clone, Copy, Debug, PartialEq, Eq)]
pub enum Purpose {
    /// The response may be stored, and is asked for whole.
    Store,
    /// The client's request is passed on, and its response isn't stored.
    Pass,
}
