// Where rounds are led, and with what.
use cache_law::CacheCore;
use shared_cache::{CachePass, SharedCache};
use std::alloc::Global;
use world::Kit;

/// Where rounds are led: over a shared cache, past a gate that may hold them.
pub struct Site<'a, R, C: CacheCore, G> {
    pub rt: &'a R,
    pub alloc: Global,
    pub shared: &'a SharedCache<C>,
    pub gate: &'a G,
}

impl<'a, R, C: CacheCore, G> Drop for Site<'a, R, C, G> {
    fn drop(self) {
        let Site {
            rt: _,
            alloc: _,
            shared: _,
            gate: _,
        } = self;
    }
}

/// What a caller leads its rounds with: its pass, where it dials, its clock, and the programs that it has.
#[derive(Drop)]
pub struct Shift<D, K, P> {
    pub pass: CachePass,
    pub kit: Kit<D, K>,
    pub programs: P,
}
