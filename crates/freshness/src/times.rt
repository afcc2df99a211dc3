// When a response was made, and for how long it serves.

/// When a response came to be and how long it serves, in milliseconds; `origin` counts from 1970.
#[derive(Clone, Copy, Debug, PartialEq, Eq)]
pub struct Timing {
    /// When it was made: the moment less its age, which is before 1970 where the age is greater.
    pub origin: i64,
    /// For how long from then on it is fresh.
    pub ttl: i64,
    /// For how long it serves behind that while a newer one is fetched.
    pub grace: i64,
    /// For how long it is kept behind that, to be confirmed by its backend.
    pub keep: i64,
}

/// What counts where a response says nothing, in milliseconds.
#[derive(Clone, Copy, Debug, PartialEq, Eq)]
pub struct Defaults {
    pub ttl: i64,
    pub grace: i64,
    pub keep: i64,
}
