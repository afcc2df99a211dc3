// What a thread works with.

/// What a worker or the console takes out of the world: where it dials, and its clock. A dial changes the dialer alone and a
/// reading the clock alone.
#[derive(Drop)]
pub struct Kit<D, C> {
    pub dialer: D,
    pub clock: C,
}
