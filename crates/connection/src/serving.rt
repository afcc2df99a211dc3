// A connection from its first request to its end.
ghost use Rattle.std.specs.Prelude.{◌≡◌, ◌<◌, ◌≤◌, length, IfNone};
ghost use Rattle.std.specs.declared.option.Option.TheVariants.{Some};
ghost use Rattle.wire.specs.Causes.{Rose};
ghost use Rattle.connection.specs.Serving.{Served, TurnTold};

use crate::ended::ending;
use crate::refusing::refuse;
use crate::requests::read_request;
use crate::{Ended, Responder};
use message_reader::Intake;
use std::alloc::Global;
use wire::Link;

// Reads the next request and has it answered. None where the connection goes on.
fn serve_next<L: Link, R: Responder<L>>(
    alloc: Global,
    link: &mut L,
    held: &mut Intake,
    room: &mut [u8],
    responder: &mut R,
) -> Option<Ended>
    requires room { 0 < length room.old }
    requires ready { R.ready responder.old }
    ensures ready { IfNone result (R.ready responder.new) }
    ensures told { TurnTold R.does (L.flow link.old) (L.flow link.new) held.old held.new responder.old responder.new result }
    ensures reads { result ≡ Some Ended.ReadFault → Rose (L.read_faults link.old) (L.read_faults link.new) }
    ensures writes { result ≡ Some Ended.WriteFault → Rose (L.write_faults link.old) (L.write_faults link.new) }
    ensures later_reads { L.read_faults link.old ≤ L.read_faults link.new }
    ensures later_writes { L.write_faults link.old ≤ L.write_faults link.new }
    ensures peer { L.peer link.new ≡ L.peer link.old }
{
    match read_request(alloc, link, held, room) {
        Ok(Some((head, body))) => ending(responder.respond(alloc, link, head, body)),
        Ok(None) => Some(Ended::Closed),
        Err(stop) => Some(refuse(link, stop)),
    }
}

/// Serves a connection: reads its requests one behind another, and has each answered before the next is read, until it ends.
/// `held` are bytes that came before, and holds then what came and wasn't used. `room` is where reads put their bytes.
pub fn serve<L: Link, R: Responder<L>>(
    alloc: Global,
    link: &mut L,
    held: &mut Intake,
    room: &mut [u8],
    responder: &mut R,
) -> Ended
    requires room { 0 < length room.old }
    requires ready { R.ready responder.old }
    ensures told { Served R.does (L.flow link.old) (L.flow link.new) held.old held.new responder.old responder.new result }
    ensures reads { result ≡ Ended.ReadFault → Rose (L.read_faults link.old) (L.read_faults link.new) }
    ensures writes { result ≡ Ended.WriteFault → Rose (L.write_faults link.old) (L.write_faults link.new) }
    ensures later_reads { L.read_faults link.old ≤ L.read_faults link.new }
    ensures later_writes { L.write_faults link.old ≤ L.write_faults link.new }
    ensures peer { L.peer link.new ≡ L.peer link.old }
{
    for turn in 0..u64::MAX {
        match serve_next(alloc, link, held, room, responder) {
            Some(ended) => return ended,
            None => {}
        }
    }
    Ended::NoMemory
}
