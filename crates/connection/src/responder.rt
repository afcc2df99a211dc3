// What answers requests.
ghost use Rattle.std.specs.Prelude.{◌≡◌, ◌≤◌};
ghost use Rattle.wire.specs.Causes.{Rose};
ghost use Rattle.connection.specs.Serving.{Round as Turn, Responds};

use crate::Answered;
use http_heads::RequestHead;
use std::alloc::Global;
use units::Text;
use wire::Link;

/// What answers the requests of a connection, in a round for each.
pub trait Responder<L: Link>: Drop {
    /// What a round does, from what stands before it to what stands behind it.
    ghost does: { Self → Self → Turn → Type 0 };

    /// It may answer a request.
    ghost ready: { Self → Type 0 };

    /// Answers a request: sends the response, and tells how the round ended. Nothing is read. Where the connection stays open it
    /// may answer another.
    fn respond(&mut self, alloc: Global, link: &mut L, head: RequestHead, body: Text) -> Answered
        requires { ready self.old }
        ensures ready { result ≡ Answered.Kept → ready self.new }
        ensures told { Responds does self.old self.new (L.flow link.old) (L.flow link.new) (head, body) result }
        ensures failed { result ≡ Answered.WriteFault → Rose (L.write_faults link.old) (L.write_faults link.new) }
        ensures later { L.write_faults link.old ≤ L.write_faults link.new }
        ensures other { L.read_faults link.new ≡ L.read_faults link.old }
        ensures peer { L.peer link.new ≡ L.peer link.old };
}
