// The answer to what is no request.
ghost use Rattle.std.specs.Prelude.{◌≡◌, ◌≤◌};
ghost use Rattle.wire.specs.Causes.{Rose};
ghost use Rattle.connection.specs.Serving.{Refused, RefusedWith};

use crate::Ended;
use http_heads::bad_request;
use message_reader::Stop;
use wire::{Link, write_link};

fn write_refusal<L: Link>(link: &mut L) -> Ended
    ensures told { RefusedWith (L.flow link.old) (L.flow link.new) result }
    ensures failed { result ≡ Ended.WriteFault → Rose (L.write_faults link.old) (L.write_faults link.new) }
    ensures later { L.write_faults link.old ≤ L.write_faults link.new }
    ensures other { L.read_faults link.new ≡ L.read_faults link.old }
    ensures peer { L.peer link.new ≡ L.peer link.old }
{
    match write_link(link, bad_request()) {
        Ok(()) => Ended::BadRequest,
        Err(_) => Ended::WriteFault,
    }
}

/// Ends a connection from which no request was read: what is no request is answered by the status 400. It takes no memory.
pub fn refuse<L: Link>(link: &mut L, stop: Stop) -> Ended
    ensures told { Refused stop (L.flow link.old) (L.flow link.new) result }
    ensures read { result ≡ Ended.ReadFault → stop ≡ Stop.Read }
    ensures failed { result ≡ Ended.WriteFault → Rose (L.write_faults link.old) (L.write_faults link.new) }
    ensures later { L.write_faults link.old ≤ L.write_faults link.new }
    ensures other { L.read_faults link.new ≡ L.read_faults link.old }
    ensures peer { L.peer link.new ≡ L.peer link.old }
{
    match stop {
        Stop::Read => Ended::ReadFault,
        Stop::NoMemory => Ended::NoMemory,
        _ => write_refusal(link),
    }
}
