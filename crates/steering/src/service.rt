// Connections, served.
ghost use Rattle.std.specs.Prelude.{◌≤◌, List};
ghost use Rattle.entrance.specs.Arriving.{IsNew};
ghost use Rattle.server.specs.declared.keeping.Event.{Event as Happening};
ghost use Rattle.workers.specs.Serving.{IsTold};
ghost use Rattle.wire.specs.Telling.{told_by};

use cache_law::CacheCore;
use round_lead::{Shift, Site};
use server::{Event, Keeper, serve_connection};
use shared_cache::SharedCache;
use std::alloc::{AllocError, Global};
use std::marker::PhantomData;
use std::sync::Wait;
use vcl_runs::{Programs, Runner};
use wire::{Clock, Dialer, Link};
use workers::{Post, Service};
use world::Gate;

/// What workers share beside a cache: a stock of programs, and a gate. Their dialers, clocks, programs, runs and keepers are of these
/// types.
pub struct Steering<'g, D, K, G, F, P, M, N> {
    pub alloc: Global,
    pub stock: F,
    pub gate: &'g G,
    pub kinds: PhantomData<(D, K, P, M, N)>,
}

impl<'g, D, K, G, F: Drop, P, M, N> Drop for Steering<'g, D, K, G, F, P, M, N> {
    fn drop(self) {
        let Steering {
            alloc: _,
            stock: _,
            gate: _,
            kinds: _,
        } = self;
    }
}

impl<'g, D, K, G, F, P, M, N> Steering<'g, D, K, G, F, P, M, N> {
    pub fn new(alloc: Global, stock: F, gate: &'g G) -> Steering<'g, D, K, G, F, P, M, N> {
        Steering {
            alloc,
            stock,
            gate,
            kinds: PhantomData,
        }
    }
}

impl<
    'g,
    C: CacheCore,
    L: Link,
    D: Dialer + Drop + Send,
    K: Clock + Drop + Send,
    G: Gate,
    F,
    P: Programs<M> + Drop + Send,
    M: Runner,
    N: Keeper<L> + Send,
> Service<L, SharedCache<C>> for Steering<'g, D, K, G, F, P, M, N>
where
    M::Program: Drop,
{
    type Shift = Shift<D, K, P>;

    type Keeper = N;

    type Event = Event<L>;

    ghost use Rattle.vcl_runs.specs.Languages.{language_of};
    ghost use Rattle.steering.specs.Serving.{IsReady, Serves};

    ghost Ready = { λ _ cache shift. IsReady cache shift };

    ghost HasRoom = { λ keeper. 2 ≤ N.room keeper };

    ghost Told = { λ keeper events. N.Told keeper events };

    ghost Serves = { λ _ cache old new opening events. Serves (language_of P.of_text M.turns M.targets M.default_of P.backends) (told_by D.Link.flow D.Link.read_faults D.Link.write_faults D.Link.peer D.Link.is_open)
        (told_by L.flow L.read_faults L.write_faults L.peer L.is_open) D.talks D.dial_faults K.readings K.words old new opening events };

    fn make_room(&self, keeper: &mut N) -> Result<(), AllocError> {
        keeper.reserve(2)
    }

    fn serve<R: Wait>(
        &self,
        rt: &R,
        site: &SharedCache<C>,
        post: Post<Shift<D, K, P>, N>,
        link: L,
        address: [u8; 4],
    ) -> Post<Shift<D, K, P>, N>
        requires ready { IsReady site.now post.shift }
        requires room { 2 ≤ N.room post.keeper }
        requires new { IsNew (told_by L.flow L.read_faults L.write_faults L.peer L.is_open link) address }
        ensures ready { IsReady site.now result.shift }
        ensures serves { (events : List (Happening L)) × IsTold N.Told post.keeper result.keeper events
            × Serves (language_of P.of_text M.turns M.targets M.default_of P.backends) (told_by D.Link.flow D.Link.read_faults D.Link.write_faults D.Link.peer D.Link.is_open)
            (told_by L.flow L.read_faults L.write_faults L.peer L.is_open) D.talks D.dial_faults K.readings K.words post.shift result.shift
            (told_by L.flow L.read_faults L.write_faults L.peer L.is_open link) events }
    {
        let site = Site {
            rt,
            alloc: self.alloc,
            shared: site,
            gate: self.gate,
        };
        let Post { shift, keeper } = post;
        let (shift, keeper) = serve_connection::<R, C, G, D, K, P, M, L, N>(
            site, shift, keeper, link, address,
        );
        Post { shift, keeper }
    }
}
