// A whole text in numbers.
ghost use Rattle.std.specs.Prelude.{◌≡◌, ◌<◌};
ghost use Rattle.vcl_language.specs.Scopes.{subroutine_number};

use acl_match::AclEntries;
use directors::DirectorKind;
use units::{Sequence, Text};
use vcl_code::Arena;
use vcl_language::Subroutine;
use vcl_values::Backend;

/// A director as it is made.
#[derive(Drop)]
pub struct Director {
    pub name: Text,
    pub kind: DirectorKind,
}

/// A backend of a director: the two by their numbers, and a weight from 1 to 1,000.
#[derive(Clone, Copy, Debug, PartialEq, Eq)]
pub struct Member {
    pub director: usize,
    pub backend: usize,
    pub weight: u32,
}

/// What a text is in numbers. Backends, ACLs, directors and subroutines of its own have their places here as their numbers.
#[derive(Drop)]
pub struct Code {
    pub arena: Arena,
    pub backends: Sequence<Backend>,
    /// The number of the backend that is used where none is set.
    pub default_backend: usize,
    pub acls: Sequence<AclEntries>,
    pub directors: Sequence<Director>,
    /// The members of all directors, in the text's order.
    pub members: Sequence<Member>,
    /// The blocks of the text's own subroutines.
    pub customs: Sequence<usize>,
    /// The blocks of the built-in subroutines, by their numbers.
    pub built_in: [usize; 13],
}

/// The number of a built-in subroutine, from vcl_recv on.
pub fn number_of(subroutine: Subroutine) -> usize
    ensures value { result ≡ subroutine_number subroutine }
    ensures within { result < 13 }
{
    match subroutine {
        Subroutine::Recv => 0,
        Subroutine::Hash => 1,
        Subroutine::Purge => 2,
        Subroutine::Hit => 3,
        Subroutine::Miss => 4,
        Subroutine::Pass => 5,
        Subroutine::Deliver => 6,
        Subroutine::Synth => 7,
        Subroutine::BackendFetch => 8,
        Subroutine::BackendResponse => 9,
        Subroutine::BackendError => 10,
        Subroutine::Init => 11,
        Subroutine::Fini => 12,
    }
}
