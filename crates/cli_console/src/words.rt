// The words of a line as a command's name and what stands behind it.
ghost use Rattle.std.specs.Prelude.{◌≡◌, ◌∷◌, [], MatchOption};

use cli_words::Words;
use units::{Sequence, Text};

/// A command's name and the words behind it.
#[derive(Drop)]
pub struct Called {
    pub name: Text,
    pub arguments: Words,
}

/// None where there are no words.
pub fn split_name(words: Words) -> Option<Called>
    ensures { MatchOption result (words ≡ []) (λ called. words ≡ called.name ∷ called.arguments) }
{
    let mut words = words.into_vec();
    if words.is_empty() {
        return None;
    }
    let name = words.remove(0);
    Some(Called {
        name,
        arguments: Sequence::from_vec(words),
    })
}
