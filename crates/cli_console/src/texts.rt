// Words of a list of known length.
ghost use Rattle.std.specs.Prelude.{◌≡◌, ◌∷◌, [], length};

use units::Text;

/// The only word.
pub fn only(words: &[Text]) -> &Text
    requires { length words.now ≡ 1 }
    ensures { words.now ≡ result.now ∷ [] }
{
    &words[0]
}

/// Two words.
#[derive(Clone, Copy)]
pub struct Pair<'a> {
    pub first: &'a Text,
    pub second: &'a Text,
}

/// Both words.
pub fn both(words: &[Text]) -> Pair<'_>
    requires { length words.now ≡ 2 }
    ensures { words.now ≡ result.first.now ∷ result.second.now ∷ [] }
{
    Pair {
        first: &words[0],
        second: &words[1],
    }
}
