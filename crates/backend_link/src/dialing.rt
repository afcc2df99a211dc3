// One exchange with a backend: a dial, a conversation, and the link handed back.
ghost use Rattle.std.specs.Prelude.{◌≡◌, ◌≢◌};
ghost use Rattle.wire.specs.Causes.{Rose};
ghost use Rattle.wire.specs.Telling.{told_by, dialer_told_by};
ghost use Rattle.backend_link.specs.Exchanges.{Exchanged};
ghost use Rattle.backend_link.specs.Said.{IsSaid};

use crate::converse;
use http_heads::{Backend, BackendRequest, Exchange};
use std::alloc::Global;
use wire::{DialError, Dialer, Link};

/// Sends a request to a backend over a link of its own, and reads its reply. The link is handed back in every case.
/// Where no call failed and memory was there, the answer is the one that the link's bytes say.
pub fn exchange<D: Dialer>(
    alloc: Global,
    dialer: &mut D,
    backend: &Backend,
    request: &BackendRequest,
) -> Exchange
    ensures told { Exchanged (told_by D.Link.flow D.Link.read_faults D.Link.write_faults D.Link.peer D.Link.is_open) backend.now request.now
        (dialer_told_by D.talks D.dial_faults dialer.old) (dialer_told_by D.talks D.dial_faults dialer.new) result }
    ensures dials { result ≡ Exchange.Fault 1 → Rose (D.dial_faults dialer.old) (D.dial_faults dialer.new) }
    ensures writes { result ≡ Exchange.Fault 2 → Rose (D.write_faults dialer.old) (D.write_faults dialer.new) }
    ensures reads { result ≡ Exchange.Fault 3 → Rose (D.read_faults dialer.old) (D.read_faults dialer.new) }
    ensures complete { ¬ (Rose (D.dial_faults dialer.old) (D.dial_faults dialer.new)) → ¬ (Rose (D.write_faults dialer.old) (D.write_faults dialer.new))
        → ¬ (Rose (D.read_faults dialer.old) (D.read_faults dialer.new)) → result ≢ Exchange.NoMemory
        → IsSaid (told_by D.Link.flow D.Link.read_faults D.Link.write_faults D.Link.peer D.Link.is_open) backend.now request.now
        (dialer_told_by D.talks D.dial_faults dialer.old) (dialer_told_by D.talks D.dial_faults dialer.new) result }
{
    let mut link = match dialer.dial(&backend.host, &backend.port) {
        Ok(link) => link,
        Err(DialError::Failed) => return Exchange::Fault(1),
        Err(DialError::NoMemory) => return Exchange::NoMemory,
    };
    let answer = converse(alloc, &mut link, request);
    link.shut();
    dialer.hang_up(link);
    answer
}
