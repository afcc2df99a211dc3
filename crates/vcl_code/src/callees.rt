// The functions that the language and the module xkey have, and the words of return, by their names.
ghost use Rattle.std.specs.Prelude.{◌≡◌, map, position, option_and_then, slice_get};
ghost use Rattle.std.specs.Str.{bytes_eq};
ghost use Rattle.vcl_language.specs.declared.functions.TheConstants.{FUNCTION_NAMES};
ghost use Rattle.vcl_language.specs.declared.words.TheConstants.{WORD_NAMES as LANGUAGE_WORDS};
ghost use Rattle.vcl_code.specs.Names.{builtin_of, word_of};

use crate::node::ReturnWord;

/// A function of the language or of xkey.
#[derive(Clone, Copy, Debug, PartialEq, Eq)]
pub enum Builtin {
    HashData,
    Synthetic,
    Ban,
    /// `regsub`, or with `true` `regsuball`.
    Substitute(bool),
    /// `xkey.purge`, or with `true` `xkey.softpurge`.
    Xkey(bool),
}

// the name, and the function
macro_rules! builtins {
    ($column:ident) => {
        $column! {
            "hash_data" Builtin::HashData;
            "synthetic" Builtin::Synthetic;
            "ban" Builtin::Ban;
            "regsub" Builtin::Substitute(false);
            "regsuball" Builtin::Substitute(true);
            "xkey.purge" Builtin::Xkey(false);
            "xkey.softpurge" Builtin::Xkey(true);
        }
    };
}

// the name, and the word
macro_rules! words {
    ($column:ident) => {
        $column! {
            "hash" ReturnWord::Hash;
            "pass" ReturnWord::Pass;
            "purge" ReturnWord::Purge;
            "synth" ReturnWord::Synth;
            "restart" ReturnWord::Restart;
            "fail" ReturnWord::Fail;
            "lookup" ReturnWord::Lookup;
            "deliver" ReturnWord::Deliver;
            "fetch" ReturnWord::Fetch;
            "error" ReturnWord::Error;
            "abandon" ReturnWord::Abandon;
            "retry" ReturnWord::Retry;
            "ok" ReturnWord::Ok;
        }
    };
}

macro_rules! names {
    ($($name:literal $entry:expr;)*) => { [$($name),*] };
}

macro_rules! entries {
    ($($name:literal $entry:expr;)*) => { [$($entry),*] };
}

pub static BUILTIN_NAMES: [&str; 7] = builtins!(names);

pub static BUILTINS: [Builtin; 7] = builtins!(entries);

pub static WORD_NAMES: [&str; 13] = words!(names);

pub static WORDS: [ReturnWord; 13] = words!(entries);

/// The function of this name, other than stored functions and methods.
#[tactic(auto, unfolding(crate::specs::Names::builtin_of))]
pub fn builtin_of(name: &[u8]) -> Option<Builtin>
    ensures { result ≡ builtin_of name.now }
{
    entry_at(&BUILTINS, row_of(&BUILTIN_NAMES, name))
}

/// The word of return of this name.
#[tactic(auto, unfolding(crate::specs::Names::word_of))]
pub fn word_of(name: &[u8]) -> Option<ReturnWord>
    ensures { result ≡ word_of name.now }
{
    entry_at(&WORDS, row_of(&WORD_NAMES, name))
}

/// The functions and words are those of the language.
pub fn all_callees()
    ensures functions { map (λ name. name.now) BUILTIN_NAMES ≡ map (λ name. name.now) FUNCTION_NAMES }
    ensures words { map (λ name. name.now) WORD_NAMES ≡ map (λ name. name.now) LANGUAGE_WORDS }
{}

// The number of the row with this name.
fn row_of(names: &[&str], name: &[u8]) -> Option<usize>
    ensures { result ≡ position (λ known. bytes_eq known.now name.now) names.now }
{
    names.iter().position(|known| known.as_bytes() == name)
}

fn entry_at<T: Copy>(entries: &[T], row: Option<usize>) -> Option<T>
    ensures { result ≡ option_and_then (λ k. slice_get entries.now k) row }
{
    match row {
        None => None,
        Some(row) => entries.get(row).copied(),
    }
}
