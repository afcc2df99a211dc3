// The modules and what makes directors.
ghost use Rattle.std.specs.Prelude.{◌≡◌};
ghost use Rattle.vcl_language.specs.Modules.{is_module, maker_named};

use crate::names::{entry_at, row_of};
use directors::DirectorKind;

/// What a function belongs to.
#[derive(Clone, Copy, Debug, PartialEq, Eq)]
pub enum Module {
    /// The language itself, which needs no import.
    Language,
    Xkey,
}

/// The names of the modules that are the language's own. Others are those of stored functions.
pub static MODULE_NAMES: [&str; 2] = ["xkey", "directors"];

/// Whether a module of the language has this name.
#[tactic(auto, unfolding(crate::specs::Modules::is_module))]
pub fn is_module(name: &[u8]) -> bool
    ensures { result ≡ is_module name.now }
{
    row_of(&MODULE_NAMES, name).is_some()
}

// what makes a director, and its kind
macro_rules! makers {
    ($column:ident) => {
        $column! {
            "directors.round_robin" RoundRobin;
            "directors.fallback" Fallback;
            "directors.random" Random;
            "directors.hash" Hash;
        }
    };
}

macro_rules! names {
    ($($name:literal $kind:ident;)*) => { [$($name),*] };
}

macro_rules! entries {
    ($($name:literal $kind:ident;)*) => { [$(DirectorKind::$kind),*] };
}

pub static MAKER_NAMES: [&str; 4] = makers!(names);

pub static MAKERS: [DirectorKind; 4] = makers!(entries);

/// The kind of director that is made by the function of this name, which belongs to the module `directors`.
#[tactic(auto, unfolding(crate::specs::Modules::maker_named))]
pub fn maker_named(name: &[u8]) -> Option<DirectorKind>
    ensures { result ≡ maker_named name.now }
{
    entry_at(&MAKERS, row_of(&MAKER_NAMES, name))
}
