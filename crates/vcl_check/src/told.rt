// What is told of two parts that are tied, and of a name.
ghost use Rattle.std.specs.Prelude.{◌≡◌};
ghost use Rattle.vcl_check.specs.Least.{fault_at, lesser, own_fault, tied, of_name, told_name, faultless};

use crate::form::{Form, Use};
use crate::known::meaning_of;
use crate::rules::names::{is_known, may_be_used};
use crate::rules::parts::{misfit, misplaced, unwritten_in};
use crate::rules::unless;
use crate::seen::{Meaning, Seen, Told};
use crate::views::{name_seen, seen_together};
use vcl_language::Subroutine;
use vcl_symbols::SymbolTable;
use vcl_tree::{Fault, Refusal};

/// The fault that is told first.
pub fn lesser(a: Option<Fault>, b: Option<Fault>) -> Option<Fault>
    ensures { result ≡ lesser a b }
{
    match (a, b) {
        (None, _) => b,
        (Some(first), None) => Some(first),
        (Some(first), Some(second)) => {
            if second.comes_before(first) {
                Some(second)
            } else {
                Some(first)
            }
        }
    }
}

/// A fault of a kind, if there is a place.
pub fn fault_at(kind: Refusal, place: Option<u32>) -> Option<Fault>
    ensures { result ≡ fault_at kind place }
{
    match place {
        None => None,
        Some(place) => Some(Fault { place, kind }),
    }
}

/// What is told of a part without a fault.
pub fn faultless(seen: Seen) -> Told
    ensures { result ≡ faultless seen }
{
    Told { seen, least: None }
}

fn own_fault(roots: &[Subroutine], form: Form, a: Seen, b: Seen) -> Option<Fault>
    ensures { result ≡ own_fault roots.now form a b }
{
    lesser(
        fault_at(Refusal::Kind, misfit(roots, form, a, b)),
        lesser(
            fault_at(Refusal::NotHere, misplaced(roots, form, a, b)),
            fault_at(Refusal::Pattern, unwritten_in(form, a, b)),
        ),
    )
}

/// Two parts tied.
#[tactic(auto, unfolding(crate::specs::Least::tied))]
pub fn tied(roots: &[Subroutine], form: Form, a: Told, b: Told) -> Told
    ensures { result ≡ tied roots.now form a b }
{
    Told {
        seen: seen_together(form, a.seen, b.seen),
        least: lesser(
            lesser(a.least, b.least),
            own_fault(roots, form, a.seen, b.seen),
        ),
    }
}

fn of_name(roots: &[Subroutine], by: Use, place: u32, meaning: Meaning) -> Told
    ensures { result ≡ of_name roots.now by place meaning }
{
    Told {
        seen: name_seen(place, meaning),
        least: lesser(
            fault_at(Refusal::Unknown, unless(is_known(meaning), place)),
            fault_at(
                Refusal::NotHere,
                unless(may_be_used(roots, by, meaning), place),
            ),
        ),
    }
}

/// A name by what it is used for.
#[tactic(auto, unfolding(crate::specs::Least::told_name))]
pub fn told_name(
    tables: &SymbolTable<'_>,
    roots: &[Subroutine],
    by: Use,
    place: u32,
    name: &[u8],
) -> Told
    ensures { result ≡ told_name tables.now roots.now by place name.now }
{
    of_name(roots, by, place, meaning_of(tables, by, name))
}
