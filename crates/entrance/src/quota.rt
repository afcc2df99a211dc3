// How many connections are accepted at most.
ghost use Rattle.std.specs.Prelude.{ℕ};

use std::marker::Brand;
use std::sync::ledger::Ledger;

/// The ledger of the accepted connections, with the greatest number of them. The number stands with the type, since of what
/// was under a lock nothing is known but what its type says.
pub trait Quota: Ledger {
    ghost most: { ℕ };
}

impl Quota for Brand {
    ghost most = { 0 };
}
