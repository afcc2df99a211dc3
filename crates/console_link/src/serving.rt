// A console's connection from its first line to its end.
ghost use Rattle.std.specs.Prelude.{◌≡◌, ◌≢◌, ◌<◌, ◌≤◌, length};
ghost use Rattle.std.specs.Vec.{vec_capacity};
ghost use Rattle.std.specs.declared.option.Option.TheVariants.{Some};
ghost use Rattle.wire.specs.Causes.{Rose};
ghost use Rattle.turnstile.specs.Handles.{known};
ghost use Rattle.turnstile.specs.Knowledge.{saw};
ghost use Rattle.shared_cache.specs.Passes.{IsPassOf};
ghost use Rattle.shared_cache.specs.Sharing.{SeesLegal};
ghost use Rattle.console_link.specs.Answering.{NextTold, RefusedTold, SentTold, LineAnswered};
ghost use Rattle.console_link.specs.Complete.{IsComplete, IsUnhindered};
ghost use Rattle.console_link.specs.Talks.{Talked, stand_of};

use crate::answering::answer_line;
use crate::lines::read_line;
use crate::too_long::too_long;
use crate::{ConsoleEnd, ConsoleLine, ConsoleTalk, Desk, Site};
use cache_law::CacheCore;
use message_reader::Intake;
use std::sync::Wait;
use units::Text;
use wire::{Clock, Link, write_link};
use world::Shelf;

// Writes an answer. None where the talk goes on.
fn send<L: Link>(link: &mut L, sent: &[u8], ended: Option<ConsoleEnd>) -> Option<ConsoleEnd>
    requires { ended ≢ Some ConsoleEnd.WriteFault }
    ensures told { SentTold (L.flow link.old) (L.flow link.new) sent.now ended result }
    ensures failed { result ≡ Some ConsoleEnd.WriteFault → Rose (L.write_faults link.old) (L.write_faults link.new) }
    ensures later { L.write_faults link.old ≤ L.write_faults link.new }
    ensures other { L.read_faults link.new ≡ L.read_faults link.old }
    ensures peer { L.peer link.new ≡ L.peer link.old }
{
    match write_link(link, sent) {
        Ok(()) => ended,
        Err(_) => Some(ConsoleEnd::WriteFault),
    }
}

// Ends a talk in which no line was read: a line over its limit is answered. It takes no memory.
fn refuse<L: Link>(link: &mut L, ended: ConsoleEnd) -> ConsoleEnd
    requires { ended ≢ ConsoleEnd.WriteFault }
    ensures told { RefusedTold ended (L.flow link.old) (L.flow link.new) result }
    ensures read { result ≡ ConsoleEnd.ReadFault → ended ≡ ConsoleEnd.ReadFault }
    ensures failed { result ≡ ConsoleEnd.WriteFault → Rose (L.write_faults link.old) (L.write_faults link.new) }
    ensures later { L.write_faults link.old ≤ L.write_faults link.new }
    ensures other { L.read_faults link.new ≡ L.read_faults link.old }
    ensures peer { L.peer link.new ≡ L.peer link.old }
{
    if ended != ConsoleEnd::TooLong {
        return ended;
    }
    match write_link(link, too_long()) {
        Ok(()) => ConsoleEnd::TooLong,
        Err(_) => ConsoleEnd::WriteFault,
    }
}

// Answers a line, and keeps it. None where the talk goes on.
fn answer_next<R: Wait, C: CacheCore, L: Link, S: Shelf, K: Clock>(
    site: &Site<'_, R, C>,
    desk: &mut Desk<S, K>,
    link: &mut L,
    lines: &mut Vec<ConsoleLine>,
    line: Text,
) -> Option<ConsoleEnd>
    requires pass { IsPassOf site.now.shared.now desk.old.pass }
    requires room { length lines.old.items < vec_capacity lines.old }
    ensures pass { IsPassOf site.now.shared.now desk.new.pass × (known desk.new.pass ≡ saw (known desk.old.pass) (known desk.new.pass).seen) }
    ensures told { LineAnswered site.now.vmods.now.stored (S.files desk.old.shelf) (stand_of S.faults K.readings desk.old) (stand_of S.faults K.readings desk.new)
        (L.flow link.old) (L.flow link.new) lines.old.items lines.new.items line result }
    ensures legal { SeesLegal (known desk.old.pass) → SeesLegal (known desk.new.pass) }
    ensures words { K.words desk.new.clock ≡ K.words desk.old.clock }
    ensures shelf { S.faults desk.old.shelf ≤ S.faults desk.new.shelf }
    ensures files { S.files desk.new.shelf ≡ S.files desk.old.shelf }
    ensures reads { result ≢ Some ConsoleEnd.ReadFault }
    ensures writes { result ≡ Some ConsoleEnd.WriteFault → Rose (L.write_faults link.old) (L.write_faults link.new) }
    ensures later { L.write_faults link.old ≤ L.write_faults link.new }
    ensures other { L.read_faults link.new ≡ L.read_faults link.old }
    ensures peer { L.peer link.new ≡ L.peer link.old }
{
    match answer_line(site, desk, line) {
        Ok((kept, ended)) => {
            let ended = send(link, kept.sent.bytes(), ended);
            lines.push_reserved(kept);
            ended
        }
        Err(ended) => Some(ended),
    }
}

// Reads the next line, and has it answered. None where the talk goes on.
fn serve_next<R: Wait, C: CacheCore, L: Link, S: Shelf, K: Clock>(
    site: &Site<'_, R, C>,
    desk: &mut Desk<S, K>,
    link: &mut L,
    held: &mut Intake,
    room: &mut [u8],
    lines: &mut Vec<ConsoleLine>,
) -> Option<ConsoleEnd>
    requires pass { IsPassOf site.now.shared.now desk.old.pass }
    requires room { 0 < length room.old }
    ensures pass { IsPassOf site.now.shared.now desk.new.pass × (known desk.new.pass ≡ saw (known desk.old.pass) (known desk.new.pass).seen) }
    ensures told { NextTold site.now.vmods.now.stored (S.files desk.old.shelf) (stand_of S.faults K.readings desk.old) (stand_of S.faults K.readings desk.new)
        (L.flow link.old) (L.flow link.new) held.old held.new lines.old.items lines.new.items result }
    ensures legal { SeesLegal (known desk.old.pass) → SeesLegal (known desk.new.pass) }
    ensures words { K.words desk.new.clock ≡ K.words desk.old.clock }
    ensures shelf { S.faults desk.old.shelf ≤ S.faults desk.new.shelf }
    ensures files { S.files desk.new.shelf ≡ S.files desk.old.shelf }
    ensures reads { result ≡ Some ConsoleEnd.ReadFault → Rose (L.read_faults link.old) (L.read_faults link.new) }
    ensures writes { result ≡ Some ConsoleEnd.WriteFault → Rose (L.write_faults link.old) (L.write_faults link.new) }
    ensures later_reads { L.read_faults link.old ≤ L.read_faults link.new }
    ensures later_writes { L.write_faults link.old ≤ L.write_faults link.new }
    ensures peer { L.peer link.new ≡ L.peer link.old }
{
    if lines.reserve(1).is_err() {
        return Some(ConsoleEnd::NoMemory);
    }
    match read_line(site.alloc, link, held, room) {
        Ok(line) => answer_next(site, desk, link, lines, line),
        Err(ended) => Some(refuse(link, ended)),
    }
}

/// Serves a console's connection: reads its lines one behind another, and has each answered before the next is read, until it ends.
/// `held` are bytes that came before, and holds then what came and wasn't used. `room` is where reads put their bytes.
pub fn serve_console<R: Wait, C: CacheCore, L: Link, S: Shelf, K: Clock>(
    site: &Site<'_, R, C>,
    desk: &mut Desk<S, K>,
    link: &mut L,
    held: &mut Intake,
    room: &mut [u8],
) -> ConsoleTalk
    requires pass { IsPassOf site.now.shared.now desk.old.pass }
    requires room { 0 < length room.old }
    ensures pass { IsPassOf site.now.shared.now desk.new.pass × (known desk.new.pass ≡ saw (known desk.old.pass) (known desk.new.pass).seen) }
    ensures told { Talked site.now.vmods.now.stored (S.files desk.old.shelf) (stand_of S.faults K.readings desk.old) (stand_of S.faults K.readings desk.new)
        (L.flow link.old) (L.flow link.new) held.old held.new result.lines.items result.ended }
    ensures complete { IsUnhindered (L.read_faults link.old) (L.read_faults link.new) (L.write_faults link.old) (L.write_faults link.new) result.ended
        → IsComplete site.now.vmods.now.stored (S.files desk.old.shelf) (stand_of S.faults K.readings desk.old) (stand_of S.faults K.readings desk.new)
        (L.flow link.old) (L.flow link.new) held.old result.lines.items result.ended }
    ensures legal { SeesLegal (known desk.old.pass) → SeesLegal (known desk.new.pass) }
    ensures words { K.words desk.new.clock ≡ K.words desk.old.clock }
    ensures shelf { S.faults desk.old.shelf ≤ S.faults desk.new.shelf }
    ensures files { S.files desk.new.shelf ≡ S.files desk.old.shelf }
    ensures reads { result.ended ≡ ConsoleEnd.ReadFault → Rose (L.read_faults link.old) (L.read_faults link.new) }
    ensures writes { result.ended ≡ ConsoleEnd.WriteFault → Rose (L.write_faults link.old) (L.write_faults link.new) }
    ensures later_reads { L.read_faults link.old ≤ L.read_faults link.new }
    ensures later_writes { L.write_faults link.old ≤ L.write_faults link.new }
    ensures peer { L.peer link.new ≡ L.peer link.old }
{
    let mut lines = Vec::new(site.alloc);
    for turn in 0..u64::MAX {
        match serve_next(site, desk, link, held, room, &mut lines) {
            Some(ended) => return ConsoleTalk { lines, ended },
            None => {}
        }
    }
    ConsoleTalk {
        lines,
        ended: ConsoleEnd::NoMemory,
    }
}
