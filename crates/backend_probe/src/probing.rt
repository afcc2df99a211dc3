// One probe.
ghost use Rattle.std.specs.Prelude.{◌≡◌, IfOk};
ghost use Rattle.http_heads.specs.declared.exchange.Exchange.{Exchange as Outcome};
ghost use Rattle.wire.specs.Causes.{Rose};
ghost use Rattle.wire.specs.Telling.{told_by, dialer_told_by};
ghost use Rattle.backend_probe.specs.Probes.{IsGetOf, IsProbed, is_good, server_of, within};

use crate::get_of;
use backend_link::exchange;
use http_heads::{Backend, BackendRequest, Exchange, Got};
use std::alloc::{AllocError, Global};
use vcl_attributes::Probe;
use wire::{Clock, DialLimits, Dialer};

/// What came of a probe: the exchange with the moment of its end, and whether it is good.
#[derive(Drop)]
pub struct Probed {
    pub got: Got,
    pub good: bool,
}

// Where the backend of a probe is.
fn server_of(probe: &Probe) -> Result<Backend, AllocError>
    ensures { IfOk result (λ backend. backend ≡ server_of probe.now) }
{
    Ok(Backend {
        name: probe.backend.copy()?,
        host: probe.host.copy()?,
        port: probe.port.copy()?,
    })
}

// All of a probe's exchange is to be over within its time.
fn within(probe: &Probe) -> DialLimits
    ensures { result ≡ within probe.now }
{
    let millis = probe.timeout.unsigned_abs();
    DialLimits {
        connecting: millis,
        first_byte: millis,
        between_bytes: millis,
        whole: Some(millis),
        most_open: None,
    }
}

// Whether a reply came with the status that the probe expects.
fn is_good(probe: &Probe, exchange: &Exchange) -> bool
    ensures { result ≡ is_good probe.now.expected exchange.now }
{
    match exchange {
        Exchange::Reply(head, _) => i64::from(head.status) == probe.expected,
        Exchange::Fault(_) | Exchange::NoMemory => false,
    }
}

// Makes this request of a probe over a connection of its own.
fn ask<D: Dialer, K: Clock>(
    alloc: Global,
    dialer: &mut D,
    clock: &mut K,
    probe: &Probe,
    backend: &Backend,
    request: &BackendRequest,
) -> Result<Probed, AllocError>
    requires backend { backend.now ≡ server_of probe.now }
    requires request { IsGetOf probe.now request.now }
    ensures probed { IfOk result (IsProbed (told_by D.Link.flow D.Link.read_faults D.Link.write_faults D.Link.peer D.Link.is_open) probe.now (K.readings clock.old) (K.readings clock.new)
        (dialer_told_by D.talks D.dial_faults dialer.old) (dialer_told_by D.talks D.dial_faults dialer.new)) }
    ensures dials { IfOk result (λ one. one.got.exchange ≡ Outcome.Fault 1 → Rose (D.dial_faults dialer.old) (D.dial_faults dialer.new)) }
    ensures writes { IfOk result (λ one. one.got.exchange ≡ Outcome.Fault 2 → Rose (D.write_faults dialer.old) (D.write_faults dialer.new)) }
    ensures reads { IfOk result (λ one. one.got.exchange ≡ Outcome.Fault 3 → Rose (D.read_faults dialer.old) (D.read_faults dialer.new)) }
    ensures words { K.words clock.new ≡ K.words clock.old }
{
    dialer.within(within(probe));
    let exchange = exchange(alloc, dialer, backend, request);
    let moment = clock.now();
    let good = is_good(probe, &exchange);
    match exchange {
        Exchange::NoMemory => Err(AllocError),
        exchange => Ok(Probed {
            got: Got { moment, exchange },
            good,
        }),
    }
}

/// Asks a backend as its probe says, over a connection of its own, within the probe's time. The moment is the clock's reading when
/// the exchange is over. An error means that memory was wanting.
pub fn probe<D: Dialer, K: Clock>(
    alloc: Global,
    dialer: &mut D,
    clock: &mut K,
    probe: &Probe,
) -> Result<Probed, AllocError>
    ensures probed { IfOk result (IsProbed (told_by D.Link.flow D.Link.read_faults D.Link.write_faults D.Link.peer D.Link.is_open) probe.now (K.readings clock.old) (K.readings clock.new)
        (dialer_told_by D.talks D.dial_faults dialer.old) (dialer_told_by D.talks D.dial_faults dialer.new)) }
    ensures dials { IfOk result (λ one. one.got.exchange ≡ Outcome.Fault 1 → Rose (D.dial_faults dialer.old) (D.dial_faults dialer.new)) }
    ensures writes { IfOk result (λ one. one.got.exchange ≡ Outcome.Fault 2 → Rose (D.write_faults dialer.old) (D.write_faults dialer.new)) }
    ensures reads { IfOk result (λ one. one.got.exchange ≡ Outcome.Fault 3 → Rose (D.read_faults dialer.old) (D.read_faults dialer.new)) }
    ensures words { K.words clock.new ≡ K.words clock.old }
{
    let backend = server_of(probe)?;
    let request = get_of(alloc, probe)?;
    ask(alloc, dialer, clock, probe, &backend, &request)
}
