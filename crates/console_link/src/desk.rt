// Where lines are answered, and with what.
use cache_law::CacheCore;
use shared_cache::{CachePass, SharedCache};
use std::alloc::Global;
use vmod_host::VmodTable;

/// Where lines are answered: over a shared cache, with the stored functions that texts of VCLs may call.
pub struct Site<'a, R, C: CacheCore> {
    pub rt: &'a R,
    pub alloc: Global,
    pub shared: &'a SharedCache<C>,
    pub vmods: &'a VmodTable,
}

impl<'a, R, C: CacheCore> Drop for Site<'a, R, C> {
    fn drop(self) {
        let Site {
            rt: _,
            alloc: _,
            shared: _,
            vmods: _,
        } = self;
    }
}

/// What a console works with: its pass, where it finds files, and its clock.
#[derive(Drop)]
pub struct Desk<S, K> {
    pub pass: CachePass,
    pub shelf: S,
    pub clock: K,
}
