// The names of the built-in subroutines.
ghost use Rattle.std.specs.Prelude.{◌≡◌, position};
ghost use Rattle.std.specs.Str.{bytes_eq};
ghost use Rattle.vcl_language.specs.Names.{subroutine_named, is_reserved};

use crate::names::{entry_at, row_of};
use crate::scope::Subroutine;

// the name, and the subroutine
macro_rules! subroutines {
    ($column:ident) => {
        $column! {
            "vcl_recv" Recv;
            "vcl_hash" Hash;
            "vcl_purge" Purge;
            "vcl_hit" Hit;
            "vcl_miss" Miss;
            "vcl_pass" Pass;
            "vcl_deliver" Deliver;
            "vcl_synth" Synth;
            "vcl_backend_fetch" BackendFetch;
            "vcl_backend_response" BackendResponse;
            "vcl_backend_error" BackendError;
            "vcl_init" Init;
            "vcl_fini" Fini;
        }
    };
}

macro_rules! names {
    ($($name:literal $subroutine:ident;)*) => { [$($name),*] };
}

macro_rules! entries {
    ($($name:literal $subroutine:ident;)*) => { [$(Subroutine::$subroutine),*] };
}

pub static SUBROUTINE_NAMES: [&str; 13] = subroutines!(names);

pub static SUBROUTINES: [Subroutine; 13] = subroutines!(entries);

/// The built-in subroutine of this name.
#[tactic(auto, unfolding(crate::specs::Names::subroutine_named))]
pub fn subroutine_named(name: &[u8]) -> Option<Subroutine>
    ensures { result ≡ subroutine_named name.now }
{
    entry_at(&SUBROUTINES, row_of(&SUBROUTINE_NAMES, name))
}

/// Whether a subroutine of this name is one of the built-in ones, or none at all.
pub fn is_reserved(name: &[u8]) -> bool
    ensures { result ≡ is_reserved name.now }
{
    match name {
        [b'v', b'c', b'l', b'_', ..] => true,
        _ => false,
    }
}
