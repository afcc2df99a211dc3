// The words of return.
ghost use Rattle.std.specs.Prelude.{◌≡◌};
ghost use Rattle.vcl_language.specs.Words.{word_named};

use crate::functions::{NOTHING, Parameter, Slot, TEXT, Takes};
use crate::names::{entry_at, row_of};
use crate::scope::Scope;
use vcl_values::Kind;

/// A word of return: what it takes and in which subroutines it may stand, and in which others it takes a DURATION.
#[derive(Clone, Copy)]
pub struct Word {
    pub takes: Takes,
    pub scope: Scope,
    pub timed: Scope,
    /// Whether it is `fail`, which vcl_init may not return.
    pub fails: bool,
}

pub const NUMBER: Parameter = Parameter::Value(Kind::Int);

// A number, and maybe a text.
const NUMBER_AND_TEXT: Takes = [Slot::Needed(NUMBER), Slot::Optional(TEXT), Slot::Closed];

// The same, or nothing.
const ANY_NUMBER_AND_TEXT: Takes = [Slot::Optional(NUMBER), Slot::Optional(TEXT), Slot::Closed];

// the word, what it takes and where, where it takes a DURATION, and whether it fails
macro_rules! words {
    ($column:ident) => {
        $column! {
            "hash" NOTHING Recv Nowhere false;
            "pass" NOTHING RecvHitMiss BackendResponse false;
            "purge" NOTHING Recv Nowhere false;
            "synth" NUMBER_AND_TEXT Synthesizing Nowhere false;
            "restart" NOTHING Restarting Nowhere false;
            "fail" NOTHING AllButFini Nowhere true;
            "lookup" NOTHING Hash Nowhere false;
            "deliver" NOTHING Delivering Nowhere false;
            "fetch" NOTHING MissPassFetch Nowhere false;
            "error" ANY_NUMBER_AND_TEXT FetchResponse Nowhere false;
            "abandon" NOTHING Backend Nowhere false;
            "retry" NOTHING Response Nowhere false;
            "ok" NOTHING InitFini Nowhere false;
        }
    };
}

macro_rules! names {
    ($($name:literal $takes:ident $scope:ident $timed:ident $fails:literal;)*) => { [$($name),*] };
}

macro_rules! entries {
    ($($name:literal $takes:ident $scope:ident $timed:ident $fails:literal;)*) => {
        [$(Word { takes: $takes, scope: Scope::$scope, timed: Scope::$timed, fails: $fails }),*]
    };
}

pub static WORD_NAMES: [&str; 13] = words!(names);

pub static WORDS: [Word; 13] = words!(entries);

/// The word of return of this name.
#[tactic(auto, unfolding(crate::specs::Words::word_named))]
pub fn word_named(name: &[u8]) -> Option<Word>
    ensures { result ≡ word_named name.now }
{
    // A static that holds arrays isn't borrowed where it stands.
    let words = WORDS;
    entry_at(&words, row_of(&WORD_NAMES, name))
}
