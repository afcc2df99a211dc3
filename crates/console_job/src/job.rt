// The console and the lurker as a job beside workers.

use crate::serving::{leave, make_room, serve_operator};
use crate::sweeping::sweep;
use ban_lurker::LurkCore;
use console_link::{ConsoleTalk, Desk, Site};
use crew::Job;
use shared_cache::{CachePass, SharedCache};
use std::alloc::Global;
use std::sync::Wait;
use units::Shared;
use vmod_host::VmodTable;
use wire::Clock;
use world::{Awaited, Kit, Listener, Shelf};

/// A console beside workers: where operators come in, where it finds files, its kit, and the stored functions that texts of VCLs may
/// call.
#[derive(Drop)]
pub struct ConsoleJob<T: Listener, S: Shelf, D: Drop, K: Clock + Drop> {
    pub listener: T,
    pub shelf: S,
    pub kit: Kit<D, K>,
    pub vmods: Shared<VmodTable>,
}

/// What a console leaves: what it worked with, and of each operator's connection the talk and the link, in the order in which they
/// came.
#[derive(Drop)]
pub struct ConsoleBook<T, S, D, K, L> {
    pub listener: T,
    pub shelf: S,
    pub kit: Kit<D, K>,
    pub talks: Vec<ConsoleTalk>,
    pub links: Vec<L>,
}

impl<C: LurkCore, T: Listener, S: Shelf, D: Drop, K: Clock + Drop> Job<C>
    for ConsoleJob<T, S, D, K> {
    type Done = ConsoleBook<T, S, D, K, T::Link>;

    ghost use Rattle.wire.specs.Telling.{told_by};
    ghost use Rattle.console_job.specs.Operating.{Did, places_of_talks};

    ghost places = { λ book. places_of_talks book.talks.items };

    ghost Did = { λ job book first last. Did (told_by T.Link.flow T.Link.read_faults T.Link.write_faults T.Link.peer T.Link.is_open) S.faults K.readings T.given
        (record { functions = job.vmods.stored; files = S.files job.shelf; faults = S.faults job.shelf; readings = K.readings job.kit.clock; came = T.given job.listener })
        book first last };

    /// Until the listener says its end, or there is no memory for another connection. Where accepting failed it is asked again. While
    /// nobody comes, objects are tested on bans.
    fn work<R: Wait>(
        self,
        rt: &R,
        alloc: Global,
        cache: &SharedCache<C>,
        pass: CachePass,
    ) -> (CachePass, ConsoleBook<T, S, D, K, T::Link>) {
        let ConsoleJob {
            mut listener,
            shelf,
            kit,
            vmods,
        } = self;
        let Kit { dialer, clock } = kit;
        let site = Site {
            rt,
            alloc,
            shared: cache,
            vmods: &vmods,
        };
        let mut desk = Desk { pass, shelf, clock };
        let (mut talks, mut links) = (Vec::new(alloc), Vec::new(alloc));
        'operators: for _ in rt.forever() {
            if !make_room(&mut talks, &mut links) {
                return leave(desk, listener, dialer, talks, links);
            }
            match listener.accept() {
                Ok(Awaited::Came(link, address)) => {
                    let (talk, link) = serve_operator(&site, &mut desk, link, address);
                    talks.push_reserved(talk);
                    links.push_reserved(link);
                    continue 'operators;
                }
                Ok(Awaited::End) => return leave(desk, listener, dialer, talks, links),
                Ok(Awaited::NobodyYet) => {
                    sweep(&site, &mut desk.pass);
                    continue 'operators;
                }
                Err(_) => {}
            }
        }
        unreachable!()
    }
}
