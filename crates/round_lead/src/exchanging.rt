// One exchange with a backend.
ghost use Rattle.std.specs.Prelude.{◌≡◌, ◌≢◌, ◌⊎◌, IfOk, OnErr};
ghost use Rattle.http_heads.specs.declared.exchange.Got.{Got as Gotten};
ghost use Rattle.round_lead.specs.Steps.{Exchanges};
ghost use Rattle.wire.specs.Telling.{told_by, dialer_told_by};

use crate::Site;
use crate::keeping::Progress;
use backend_link::exchange;
use cache_law::CacheCore;
use http_heads::{Backend, BackendRequest, Exchange, Got};
use std::alloc::{AllocError, Global};
use units::Copied;
use wire::{Clock, DialLimits, Dialer};
use world::{Gate, Kit, Place};

// The same outcome again, for the round. None is given where memory was wanting for the exchange.
fn copied(alloc: Global, outcome: &Exchange) -> Result<Exchange, AllocError>
    ensures same { IfOk result (λ copy. copy ≡ outcome.now) }
    ensures given { IfOk result (λ copy. copy ≢ Exchange.NoMemory) }
{
    match outcome {
        Exchange::Reply(head, body) => Ok(Exchange::Reply(head.copied(alloc)?, body.copy()?)),
        Exchange::Fault(number) => Ok(Exchange::Fault(*number)),
        Exchange::NoMemory => Err(AllocError),
    }
}

/// One exchange, within these times, which is kept, and given where memory isn't wanting. Its moment is the clock's reading when it
/// is over.
pub(crate) fn exchange_on<R, C: CacheCore, G: Gate, D: Dialer, K: Clock>(
    site: &Site<'_, R, C, G>,
    caller: u32,
    kit: &mut Kit<D, K>,
    progress: &mut Progress,
    limits: DialLimits,
    backend: &Backend,
    request: &BackendRequest,
) -> Result<Got, AllocError>
    ensures made { IfOk result (λ got. (got.exchange ≢ Exchange.NoMemory)
        × Exchanges (told_by D.Link.flow D.Link.read_faults D.Link.write_faults D.Link.peer D.Link.is_open) backend.now request.now (K.readings kit.old.clock) (K.readings kit.new.clock) (dialer_told_by D.talks D.dial_faults kit.old.dialer) (dialer_told_by D.talks D.dial_faults kit.new.dialer) progress.old progress.new got) }
    ensures untold { OnErr result (((kit.new ≡ kit.old) × (progress.new.numbers ≡ progress.old.numbers) × (progress.new.exchanges.items ≡ progress.old.exchanges.items)
        × (progress.new.sent ≡ progress.old.sent) × (progress.new.closes ≡ progress.old.closes) × (progress.new.is_open ≡ progress.old.is_open))
        ⊎ ((got : Gotten) × Exchanges (told_by D.Link.flow D.Link.read_faults D.Link.write_faults D.Link.peer D.Link.is_open) backend.now request.now (K.readings kit.old.clock) (K.readings kit.new.clock) (dialer_told_by D.talks D.dial_faults kit.old.dialer) (dialer_told_by D.talks D.dial_faults kit.new.dialer) progress.old progress.new got)) }
    ensures words { K.words kit.new.clock ≡ K.words kit.old.clock }
{
    if progress.exchanges.reserve(1).is_err() {
        return Err(AllocError);
    }
    kit.dialer.within(limits);
    site.gate.point(caller, Place::BeforeExchange);
    let outcome = exchange(site.alloc, &mut kit.dialer, backend, request);
    site.gate.point(caller, Place::AfterExchange);
    let moment = kit.clock.now();
    let copy = copied(site.alloc, &outcome);
    progress.exchanges.push_reserved(Got {
        moment,
        exchange: outcome,
    });
    match copy {
        Ok(exchange) => Ok(Got { moment, exchange }),
        Err(error) => Err(error),
    }
}
