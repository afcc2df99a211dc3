// What a worker works at.

/// What a worker serves connections with, and whom it tells of them.
#[derive(Drop)]
pub struct Post<H, N> {
    pub shift: H,
    pub keeper: N,
}
