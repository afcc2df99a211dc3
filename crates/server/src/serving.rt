// A connection, served.
ghost use Rattle.std.specs.Prelude.{◌≡◌, ◌<◌, ◌≤◌, List, false};
ghost use Rattle.wire.specs.Causes.{Rose};
ghost use Rattle.wire.specs.Telling.{told_by};
ghost use Rattle.turnstile.specs.Handles.{known};
ghost use Rattle.shared_cache.specs.Passes.{IsPassOf};
ghost use Rattle.shared_cache.specs.Sharing.{SeesLegal};
ghost use Rattle.vcl_runs.specs.Languages.{language_of};
ghost use Rattle.round_lead.specs.Seen.{has_open};
ghost use Rattle.server.specs.Keeping.{IsTold};
ghost use Rattle.server.specs.Serving.{IsServed, TellsRounds, stands};
ghost use Rattle.server.specs.declared.keeping.Event.{Event as Happening};

use crate::keeping::{Event, Keeper};
use crate::responding::Server;
use cache_law::CacheCore;
use connection::{Ended, serve};
use message_reader::Intake;
use round_lead::{Shift, Site};
use std::marker::PhantomData;
use std::sync::Wait;
use vcl_runs::{Programs, Runner};
use wire::{Clock, Dialer, Link};
use world::Gate;

// A round for each request of the connection, until it ends, of which the keeper is told.
fn serve_rounds<
    R: Wait,
    C: CacheCore,
    G: Gate,
    D: Dialer + Drop,
    K: Clock + Drop,
    P: Programs<M> + Drop,
    M: Runner,
    L: Link,
    N: Keeper<L>,
>(
    site: Site<'_, R, C, G>,
    shift: Shift<D, K, P>,
    keeper: N,
    link: &mut L,
    peer: [u8; 4],
) -> (Shift<D, K, P>, N, Ended)
where
    M::Program: Drop,
    requires pass { IsPassOf site.shared.now shift.pass }
    requires idle { has_open (known shift.pass) ≡ false }
    requires legal { SeesLegal (known shift.pass) }
    requires room { 2 ≤ N.room keeper }
    ensures tells { TellsRounds (language_of P.of_text M.turns M.targets M.default_of P.backends) (told_by D.Link.flow D.Link.read_faults D.Link.write_faults D.Link.peer D.Link.is_open) N.Told peer
        (stands D.talks D.dial_faults K.readings K.words shift) (stands D.talks D.dial_faults K.readings K.words result.0) keeper result.1 (L.flow link.old) (L.flow link.new) result.2 }
    ensures pass { IsPassOf site.entry.shared.now result.0.pass }
    ensures idle { has_open (known result.0.pass) ≡ false }
    ensures legal { SeesLegal (known result.0.pass) }
    ensures room { 0 < N.room result.1 }
    ensures reads { result.2 ≡ Ended.ReadFault → Rose (L.read_faults link.old) (L.read_faults link.new) }
    ensures writes { result.2 ≡ Ended.WriteFault → Rose (L.write_faults link.old) (L.write_faults link.new) }
    ensures later_reads { L.read_faults link.old ≤ L.read_faults link.new }
    ensures later_writes { L.write_faults link.old ≤ L.write_faults link.new }
    ensures peer { L.peer link.new ≡ L.peer link.old }
{
    let alloc = site.alloc;
    let mut server = Server::<'_, R, C, G, D, K, P, M, N> {
        site,
        shift,
        peer,
        keeper,
        runner: PhantomData,
    };
    let mut held = Intake::new(alloc);
    let mut room = [0u8; 4096];
    let ended = serve(alloc, link, &mut held, &mut room, &mut server);
    let (shift, keeper) = server.into_parts();
    (shift, keeper, ended)
}

/// Serves a connection from the peer over the shared cache: a round for each of its requests, until it ends, and shuts it. The
/// keeper is told of each round as it was led, and then gets the link. The caller's shift and the keeper are given back. The caller
/// has no open round before it, and none behind it.
pub fn serve_connection<
    R: Wait,
    C: CacheCore,
    G: Gate,
    D: Dialer + Drop,
    K: Clock + Drop,
    P: Programs<M> + Drop,
    M: Runner,
    L: Link,
    N: Keeper<L>,
>(
    site: Site<'_, R, C, G>,
    shift: Shift<D, K, P>,
    keeper: N,
    link: L,
    peer: [u8; 4],
) -> (Shift<D, K, P>, N)
where
    M::Program: Drop,
    requires pass { IsPassOf site.shared.now shift.pass }
    requires idle { has_open (known shift.pass) ≡ false }
    requires legal { SeesLegal (known shift.pass) }
    requires room { 2 ≤ N.room keeper }
    ensures served { (events : List (Happening L)) × IsTold N.Told keeper result.1 events
        × IsServed (language_of P.of_text M.turns M.targets M.default_of P.backends) (told_by D.Link.flow D.Link.read_faults D.Link.write_faults D.Link.peer D.Link.is_open)
        (told_by L.flow L.read_faults L.write_faults L.peer L.is_open) peer (stands D.talks D.dial_faults K.readings K.words shift) (stands D.talks D.dial_faults K.readings K.words result.0)
        (told_by L.flow L.read_faults L.write_faults L.peer L.is_open link) events }
    ensures pass { IsPassOf site.entry.shared.now result.0.pass }
    ensures idle { has_open (known result.0.pass) ≡ false }
    ensures legal { SeesLegal (known result.0.pass) }
{
    let mut link = link;
    let (shift, keeper, ended) = serve_rounds::<R, C, G, D, K, P, M, L, N>(
        site, shift, keeper, &mut link, peer,
    );
    let mut keeper = keeper;
    link.shut();
    keeper.keep(Event::Over(link, ended));
    (shift, keeper)
}
