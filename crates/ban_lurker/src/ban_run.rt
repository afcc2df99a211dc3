// Bans that are tested without a request.
ghost use Rattle.std.specs.Prelude.{◌≡◌, SomeIff, true};
ghost use Rattle.std.specs.List.{list_all};
ghost use Rattle.ban_lurker.specs.Looks.{is_alone as alone};

use ban_expr::object_only;
use cache_law::Issued;
use std::marker::Model;
use units::Sequence;

/// Bans that were issued, all of them on objects alone.
#[derive(Drop)]
pub struct BanRun {
    bans: Sequence<Issued>,
}

impl Model for BanRun {
    ghost use Rattle.std.specs.Prelude.{◌≡◌, true, List};
    ghost use Rattle.std.specs.List.{list_all};
    ghost use Rattle.cache_law.specs.declared.ban.Issued.{Issued as IssuedBan};
    ghost use Rattle.ban_lurker.specs.Looks.{is_alone};

    ghost Value = { List IssuedBan };

    ghost view = { λ run. run.bans };

    ghost invariant = { λ run. list_all is_alone run.bans ≡ true };
}

impl BanRun {
    /// The bans, where all are on objects alone.
    pub fn of(bans: Sequence<Issued>) -> Option<BanRun>
        ensures { SomeIff result (list_all alone bans ≡ true) bans }
    {
        if are_alone(bans.as_slice()) {
            Some(BanRun { bans })
        } else {
            None
        }
    }

    pub fn as_slice(&self) -> &[Issued]
        ensures items { result.now ≡ self.now }
        ensures alone { list_all alone self.now ≡ true }
    {
        self.bans.as_slice()
    }
}

fn are_alone(bans: &[Issued]) -> bool
    ensures { result ≡ list_all alone bans.now }
{
    bans.iter().all(is_alone)
}

fn is_alone(issued: &Issued) -> bool
    ensures { result ≡ alone issued.now }
{
    object_only(&issued.ban)
}
