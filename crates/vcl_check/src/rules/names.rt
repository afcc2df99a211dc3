// Rules on names and where they may be used.
ghost use Rattle.std.specs.Prelude.{◌≡◌};
ghost use Rattle.std.specs.List.{list_all};
ghost use Rattle.vcl_check.specs.Rules.{is_known, may_use, is_reached, is_init, is_for_init, may_be_used};

use crate::form::Use;
use crate::seen::Meaning;
use vcl_language::{Scope, Subroutine, has};

pub fn is_known(meaning: Meaning) -> bool
    ensures { result ≡ is_known meaning }
{
    !matches!(meaning, Meaning::Unknown)
}

fn may_use(by: Use, meaning: Meaning, root: Subroutine) -> bool
    ensures { result ≡ may_use by meaning root }
{
    match by {
        Use::Read => match meaning {
            Meaning::Variable(variable) => has(variable.read, root),
            _ => true,
        },
        Use::Set => match meaning {
            Meaning::Variable(variable) => has(variable.set, root),
            _ => true,
        },
        Use::Append => match meaning {
            Meaning::Variable(variable) => has(variable.append, root),
            _ => true,
        },
        Use::Unset => match meaning {
            Meaning::Variable(variable) => has(variable.unset, root),
            _ => true,
        },
        Use::Function => match meaning {
            Meaning::Function(function) => has(function.scope, root),
            _ => true,
        },
        Use::Word => match meaning {
            Meaning::Word(word) => has(word.scope, root) || has(word.timed, root),
            _ => true,
        },
        Use::Maker => true,
        Use::Subroutine => true,
    }
}

fn may_use_in(roots: &[Subroutine], by: Use, meaning: Meaning) -> bool
    ensures { result ≡ list_all (λ s. may_use by meaning s) roots.now }
{
    roots.iter().all(|root| may_use(by, meaning, *root))
}

/// Whether something leads to the subroutine.
pub fn is_reached(roots: &[Subroutine]) -> bool
    ensures { result ≡ is_reached roots.now }
{
    !roots.is_empty()
}

// Whether it stands in vcl_init alone.
fn is_for_init(by: Use, meaning: Meaning) -> bool
    ensures { result ≡ is_for_init by meaning }
{
    match by {
        Use::Function => match meaning {
            Meaning::Function(function) => matches!(function.scope, Scope::Init),
            _ => false,
        },
        _ => false,
    }
}

/// Whether a name may be used so in each of the subroutines that lead there.
pub fn may_be_used(roots: &[Subroutine], by: Use, meaning: Meaning) -> bool
    ensures { result ≡ may_be_used roots.now by meaning }
{
    may_use_in(roots, by, meaning) && (is_reached(roots) || !is_for_init(by, meaning))
}
