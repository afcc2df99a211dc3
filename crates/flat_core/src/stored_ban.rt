// A ban in memory.
ghost use Rattle.std.specs.Prelude.{◌≡◌, not, IfOk};
ghost use Rattle.cache_law.specs.Bans.{is_shown as is_shown_by, meets, object_only as looks_at_objects};
ghost use Rattle.cache_law.specs.ShownBans.{those_open};

use ban_expr::{Prepared, object_only};
use ban_lines::shows;
use cache_law::{BanLine, Issued, Object, RequestView};
use std::alloc::{AllocError, Global};
use std::marker::Model;

/// A ban that was issued, made ready to be tested: its patterns are built once. Clauses see the ban with its number and its
/// moment.
#[derive(Drop)]
pub(crate) struct StoredBan {
    number: u64,
    moment: u64,
    ban: Prepared,
}

impl Model for StoredBan {
    ghost use Rattle.cache_law.specs.declared.ban.Issued.{Issued};

    ghost Value = { Issued };

    ghost view = { λ stored. record { number = stored.number; moment = stored.moment; ban = stored.ban } };
}

impl StoredBan {
    pub fn new(number: u64, moment: u64, ban: Prepared) -> StoredBan
        ensures { result ≡ record { number = number; moment = moment; ban = ban } }
    {
        StoredBan {
            number,
            moment,
            ban,
        }
    }

    pub fn number(&self) -> u64
        ensures { result ≡ self.now.number }
    {
        self.number
    }

    /// Whether it waits for lookups.
    pub fn is_waiting(&self) -> bool
        ensures { result ≡ not (looks_at_objects self.now.ban) }
    {
        !object_only(self.ban.ban())
    }

    /// Whether it matches the object with the request.
    pub fn meets(
        &self,
        alloc: Global,
        object: &Object,
        request: &RequestView,
    ) -> Result<bool, AllocError>
        ensures { IfOk result (λ met. met ≡ meets object.now request.now self.now) }
    {
        self.ban.test(alloc, self.moment, object, Some(request))
    }

    /// Whether the lines show it.
    pub fn is_shown(&self, lines: &[BanLine]) -> bool
        ensures { result ≡ is_shown_by (those_open lines.now) self.now }
    {
        shows(lines, self.number, self.ban.ban())
    }

    /// The same as plain data.
    pub fn issued(&self) -> Result<Issued, AllocError>
        ensures { IfOk result (λ issued. issued ≡ self.now) }
    {
        Ok(Issued {
            number: self.number,
            moment: self.moment,
            ban: self.ban.ban().copy()?,
        })
    }
}
