// What workers begin with, and what they leave.
ghost use Rattle.std.specs.Prelude.{◌≡◌, []};
ghost use Rattle.wire.specs.Telling.{told_by};

use crate::service::Steering;
use crate::stock::Stock;
use cache_law::CacheCore;
use crew::Host;
use round_lead::Shift;
use server::Keeper;
use shared_cache::CachePass;
use std::alloc::{AllocError, Global};
use vcl_runs::{Programs, Runner};
use wire::{Clock, Dialer, Link};
use world::{Gate, Kit};

impl<
    'g,
    C: CacheCore,
    L: Link,
    D: Dialer + Drop + Send,
    K: Clock + Drop + Send,
    G: Gate,
    F: Stock<P>,
    P: Programs<M> + Drop + Send,
    M: Runner,
    N: Keeper<L> + Send,
> Host<C, D, K, L> for Steering<'g, D, K, G, F, P, M, N>
where
    M::Program: Drop,
{
    type Outfit = P;

    ghost use Rattle.vcl_runs.specs.Languages.{language_of};
    ghost use Rattle.server.specs.Keeping.{places_of};
    ghost use Rattle.steering.specs.Telling.{Tells};
    ghost use Rattle.steering.specs.Laws.{starts, calls_of, tells_of, longer_of};

    ghost pass_of = { λ shift. shift.pass };

    ghost kit_of = { λ shift. shift.kit };

    ghost places = { λ events. places_of events };

    ghost Tells = { λ _ beginning history number before after opening events. Tells (language_of P.of_text M.turns M.targets M.default_of P.backends) (told_by D.Link.flow D.Link.read_faults D.Link.write_faults D.Link.peer D.Link.is_open)
        (told_by L.flow L.read_faults L.write_faults L.peer L.is_open) D.talks D.dial_faults K.readings K.words beginning history number before after opening events };

    ghost ready = { λ host cache shift pass start. starts cache shift pass start };

    ghost pass = { λ host cache shift ready. ready.pass };

    ghost calls = { λ host cache old new opening events serves. calls_of (language_of P.of_text M.turns M.targets M.default_of P.backends) (told_by D.Link.flow D.Link.read_faults D.Link.write_faults D.Link.peer D.Link.is_open)
        (told_by L.flow L.read_faults L.write_faults L.peer L.is_open) D.talks D.dial_faults K.readings K.words old new opening events serves };

    ghost tells = { λ host cache old new opening events beginning serves begins. tells_of (language_of P.of_text M.turns M.targets M.default_of P.backends) (told_by D.Link.flow D.Link.read_faults D.Link.write_faults D.Link.peer D.Link.is_open)
        (told_by L.flow L.read_faults L.write_faults L.peer L.is_open) D.talks D.dial_faults K.readings K.words old new opening events serves beginning begins };

    ghost longer = { λ host beginning history more number before after opening events tells. longer_of (language_of P.of_text M.turns M.targets M.default_of P.backends) (told_by D.Link.flow D.Link.read_faults D.Link.write_faults D.Link.peer D.Link.is_open)
        (told_by L.flow L.read_faults L.write_faults L.peer L.is_open) D.talks D.dial_faults K.readings K.words beginning history more number before after opening events tells };

    fn outfit(&self, alloc: Global) -> Result<P, AllocError> {
        self.stock.programs(alloc)
    }

    fn begin_keeper(&self, alloc: Global) -> N
        ensures { N.Told result [] }
    {
        N::begin(alloc)
    }

    fn begin_shift(&self, outfit: P, pass: CachePass, kit: Kit<D, K>) -> Shift<D, K, P>
        ensures { (result.pass ≡ pass) × (result.kit ≡ kit) }
    {
        Shift {
            pass,
            kit,
            programs: outfit,
        }
    }

    fn end_shift(&self, shift: Shift<D, K, P>) -> (CachePass, Kit<D, K>)
        ensures { (result.0 ≡ shift.pass) × (result.1 ≡ shift.kit) }
    {
        let Shift {
            pass,
            kit,
            programs: _,
        } = shift;
        (pass, kit)
    }
}
