// Where connections come in.
ghost use Rattle.std.specs.Prelude.{◌≡◌, ◌||◌, ℕ, Bool, true, IfOk, OnErr};
ghost use Rattle.wire.specs.Causes.{HasCause};
ghost use Rattle.wire.specs.Flow.{IsFresh};
ghost use Rattle.wire.specs.declared.peer.Peer.{Peer as End};
ghost use Rattle.world.specs.Awaiting.{IfCame, IfNobodyYet, is_end, given_behind};

use crate::Awaited;
use wire::{Failed, Link};

/// Where connections come in.
pub trait Listener: Drop {
    type Link: Link + Drop + Send;

    /// How often a call failed; the greatest count stands for all beyond.
    ghost faults: { Self → ℕ };

    /// It said that no connection comes any more.
    ghost ended: { Self → Bool };

    /// How many connections it gave; the greatest count stands for all beyond.
    ghost given: { Self → ℕ };

    /// Waits for the next connection, for a bounded time that the listener chooses. Where nobody came yet nothing has changed but
    /// that it was asked, and it may be asked again.
    fn accept(&mut self) -> Result<Awaited<Self::Link>, Failed>
        ensures fresh { IfOk result (λ found. IfCame found (λ link _. IsFresh (Self.Link.flow link))) }
        ensures reads { IfOk result (λ found. IfCame found (λ link _. Self.Link.read_faults link ≡ 0)) }
        ensures writes { IfOk result (λ found. IfCame found (λ link _. Self.Link.write_faults link ≡ 0)) }
        ensures peer { IfOk result (λ found. IfCame found (λ link address. Self.Link.peer link ≡ End.Accepted address)) }
        ensures is_open { IfOk result (λ found. IfCame found (λ link _. Self.Link.is_open link ≡ true)) }
        ensures quiet { IfOk result (λ found. IfNobodyYet found (faults self.new ≡ faults self.old)) }
        ensures given { IfOk result (λ found. given self.new ≡ given_behind (given self.old) found) }
        ensures gave_none { OnErr result (given self.new ≡ given self.old) }
        ensures end { IfOk result (λ found. ended self.new ≡ (is_end found || ended self.old)) }
        ensures going { OnErr result (ended self.new ≡ ended self.old) }
        ensures cause { HasCause (faults self.old) (faults self.new) result };
}
