// One operator's connection, and what a console leaves.
ghost use Rattle.std.specs.Prelude.{◌≡◌, ◌<◌, true, vec_len, vec_capacity};
ghost use Rattle.entrance.specs.Arriving.{IsNew};
ghost use Rattle.turnstile.specs.Handles.{known};
ghost use Rattle.turnstile.specs.Knowledge.{saw};
ghost use Rattle.shared_cache.specs.Passes.{IsPassOf};
ghost use Rattle.wire.specs.Telling.{told_by};
ghost use Rattle.console_link.specs.Talks.{stand_of};
ghost use Rattle.console_job.specs.Operating.{IsServed};

use crate::job::ConsoleBook;
use cache_law::CacheCore;
use console_link::{ConsoleTalk, Desk, Site, serve_console};
use message_reader::Intake;
use shared_cache::CachePass;
use std::sync::Wait;
use wire::{Clock, Link};
use world::{Kit, Shelf};

/// How many bytes are read at once.
const READ_BYTES: usize = 4096;

/// Serves an operator's connection that was just accepted, and ends it: its talk, and its link.
pub(crate) fn serve_operator<R: Wait, C: CacheCore, L: Link, S: Shelf, K: Clock>(
    site: &Site<'_, R, C>,
    desk: &mut Desk<S, K>,
    link: L,
    address: [u8; 4],
) -> (ConsoleTalk, L)
    requires pass { IsPassOf site.now.shared.now desk.old.pass }
    requires new { IsNew (told_by L.flow L.read_faults L.write_faults L.peer L.is_open link) address }
    ensures pass { IsPassOf site.now.shared.now desk.new.pass × (known desk.new.pass ≡ saw (known desk.old.pass) (known desk.new.pass).seen) }
    ensures served { IsServed site.now.vmods.now.stored (S.files desk.old.shelf) (told_by L.flow L.read_faults L.write_faults L.peer L.is_open)
        (stand_of S.faults K.readings desk.old) (stand_of S.faults K.readings desk.new) result.0 result.1 }
    ensures words { K.words desk.new.clock ≡ K.words desk.old.clock }
    ensures files { S.files desk.new.shelf ≡ S.files desk.old.shelf }
{
    let mut link = link;
    let mut held = Intake::new(site.alloc);
    let mut room = [0u8; READ_BYTES];
    let talk = serve_console(site, desk, &mut link, &mut held, &mut room);
    link.shut();
    (talk, link)
}

/// Makes room for another connection, if there is memory for it.
pub(crate) fn make_room<L>(talks: &mut Vec<ConsoleTalk>, links: &mut Vec<L>) -> bool
    ensures talks { talks.new.items ≡ talks.old.items }
    ensures links { links.new.items ≡ links.old.items }
    ensures room { result ≡ true → (vec_len talks.new < vec_capacity talks.new) × (vec_len links.new < vec_capacity links.new) }
{
    talks.reserve(1).is_ok() && links.reserve(1).is_ok()
}

/// What a console's pass is in the end, and what the console leaves.
pub(crate) fn leave<T, S, D, K, L>(
    desk: Desk<S, K>,
    listener: T,
    dialer: D,
    talks: Vec<ConsoleTalk>,
    links: Vec<L>,
) -> (CachePass, ConsoleBook<T, S, D, K, L>)
    ensures pass { result.0 ≡ desk.pass }
    ensures listener { result.1.listener ≡ listener }
    ensures shelf { result.1.shelf ≡ desk.shelf }
    ensures clock { result.1.kit.clock ≡ desk.clock }
    ensures talks { result.1.talks ≡ talks }
    ensures links { result.1.links ≡ links }
{
    let Desk { pass, shelf, clock } = desk;
    let book = ConsoleBook {
        listener,
        shelf,
        kit: Kit { dialer, clock },
        talks,
        links,
    };
    (pass, book)
}
