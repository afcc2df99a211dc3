// A ban made ready to be tested.
ghost use Rattle.std.specs.Prelude.{◌≡◌, IfOk};
ghost use Rattle.std.specs.Option.{option_copied};
ghost use Rattle.cache_law.specs.Bans.{ban_matches};

use crate::matching::all_hold;
use crate::patterns::patterns_of;
use cache_law::{Ban, Object, RequestView};
use std::alloc::{AllocError, Global};
use std::marker::Model;
use units::{Sequence, Shared};
use vcl_values::Pattern;

/// A ban made ready to be tested: its patterns are built once and not at each test. Clauses see the ban.
#[derive(Drop)]
pub struct Prepared {
    ban: Shared<Ban>,
    // of each condition the one that it searches for
    patterns: Sequence<Option<Pattern>>,
}

impl Model for Prepared {
    ghost use Rattle.std.specs.Prelude.{◌≡◌, map};
    ghost use Rattle.cache_law.specs.declared.ban.Ban.{Ban as BanWords};
    ghost use Rattle.ban_expr.specs.Searches.{sought};

    ghost Value = { BanWords };

    ghost view = { λ prepared. prepared.ban };

    ghost invariant = { λ prepared. prepared.patterns ≡ map sought prepared.ban.conditions };
}

/// Makes the ban ready to be tested. A pattern that can't be built is want of memory.
pub fn prepare(alloc: Global, ban: &Shared<Ban>) -> Result<Prepared, AllocError>
    ensures { IfOk result (λ prepared. prepared ≡ ban.now) }
{
    Ok(Prepared {
        ban: ban.copy()?,
        patterns: patterns_of(alloc, ban.conditions.as_slice())?,
    })
}

impl Prepared {
    pub fn ban(&self) -> &Shared<Ban>
        ensures { result.now ≡ self.now }
    {
        &self.ban
    }

    /// Whether the ban, issued at the moment, matches the object with the request. Hand the request unless the ban looks
    /// at objects alone: without one its fields count as absent.
    #[tactic(auto, unfolding(cache_law::specs::Bans::ban_matches))]
    pub fn test(
        &self,
        alloc: Global,
        issued: u64,
        object: &Object,
        request: Option<&RequestView>,
    ) -> Result<bool, AllocError>
        ensures { IfOk result (λ matched. matched ≡ ban_matches self.now issued object.now (option_copied request.entry)) }
    {
        let conditions = self.ban.conditions.as_slice();
        all_hold(
            alloc,
            conditions,
            self.patterns.as_slice(),
            issued,
            object,
            request,
        )
    }
}
