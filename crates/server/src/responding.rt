// A round for each request of a connection.
ghost use Rattle.std.specs.Prelude.{◌≡◌, ◌≤◌, [], Option};
ghost use Rattle.wire.specs.Causes.{Rose};
ghost use Rattle.wire.specs.Telling.{told_by};

use crate::keeping::{Event, Keeper};
use cache_law::CacheCore;
use cache_law::rounds::Request;
use connection::{Answered, Responder};
use http_heads::RequestHead;
use round_lead::{Round, Shift, Site, lead};
use std::alloc::Global;
use std::marker::PhantomData;
use std::sync::Wait;
use units::Text;
use vcl_runs::{Programs, Runner};
use wire::{Clock, Dialer, Link};
use world::Gate;

/// A caller that serves a connection from a peer, and whom it tells of its rounds.
pub(crate) struct Server<'s, R, C: CacheCore, G, D, K, P, M, N> {
    pub site: Site<'s, R, C, G>,
    pub shift: Shift<D, K, P>,
    pub peer: [u8; 4],
    pub keeper: N,
    pub runner: PhantomData<M>,
}

impl<'s, R, C: CacheCore, G, D: Drop, K: Drop, P: Drop, M, N: Drop> Drop
    for Server<'s, R, C, G, D, K, P, M, N> {
    fn drop(self) {
        let Server {
            site: _,
            shift: _,
            peer: _,
            keeper: _,
            runner: _,
        } = self;
    }
}

impl<'s, R, C: CacheCore, G, D: Drop, K: Drop, P: Drop, M, N> Server<'s, R, C, G, D, K, P, M, N> {
    /// The caller's shift, and its keeper.
    pub(crate) fn into_parts(self) -> (Shift<D, K, P>, N)
        ensures { result ≡ (self.entry.shift, self.entry.keeper) }
    {
        let Server {
            site: _,
            shift,
            peer: _,
            keeper,
            runner: _,
        } = self;
        (shift, keeper)
    }
}

// A round for which there is no memory.
fn unled(alloc: Global, request: Request, peer: [u8; 4]) -> Round
    ensures { (result.request ≡ request) × (result.peer ≡ peer) × (result.numbers.items ≡ []) × (result.exchanges.items ≡ []) × (result.sent.items ≡ []) }
{
    Round {
        request,
        peer,
        numbers: Vec::new(alloc),
        exchanges: Vec::new(alloc),
        sent: Vec::new(alloc),
    }
}

impl<
    's,
    R: Wait,
    C: CacheCore,
    G: Gate,
    D: Dialer + Drop,
    K: Clock + Drop,
    P: Programs<M> + Drop,
    M: Runner,
    L: Link,
    N: Keeper<L>,
> Responder<L> for Server<'s, R, C, G, D, K, P, M, N>
where
    M::Program: Drop,
{
    ghost use Rattle.vcl_runs.specs.Languages.{language_of};
    ghost use Rattle.server.specs.Serving.{IsReady, IsSound, TellsOne, stand_of};

    ghost ready = { λ server. IsReady N.room server };

    ghost does = { λ old new turn. (new.site ≡ old.site) × (new.peer ≡ old.peer) × IsSound N.room new
        × TellsOne (language_of P.of_text M.turns M.targets M.default_of P.backends) (told_by D.Link.flow D.Link.read_faults D.Link.write_faults D.Link.peer D.Link.is_open) N.Told old.peer
        (stand_of D.talks D.dial_faults K.readings K.words old) (stand_of D.talks D.dial_faults K.readings K.words new) old.keeper new.keeper turn };

    fn respond(&mut self, alloc: Global, link: &mut L, head: RequestHead, body: Text) -> Answered {
        let request = Request { head, body };
        if self.keeper.reserve(3).is_err() {
            self.keeper
                .keep(Event::Led(unled(alloc, request, self.peer)));
            return Answered::NoMemory;
        }
        let (round, answered) = lead::<R, C, G, D, K, P, M, L>(
            &self.site,
            &mut self.shift,
            link,
            request,
            self.peer,
        );
        self.keeper.keep(Event::Led(round));
        answered
    }
}
