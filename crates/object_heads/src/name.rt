// The name of a key: its number, and behind that the whole key.
ghost use Rattle.std.specs.Prelude.{◌≡◌, ◌++◌, ◌<◌, ℕ, IfOk, OnOk, slice_index_or};
ghost use Rattle.units.specs.Quoted.{quote_of};
ghost use Rattle.object_heads.specs.Names.{IsNameOf};

use directors::key_word;
use std::alloc::{AllocError, Global};
use units::{Text, quote};

/// Names are in the order of their numbers, which are spread evenly whoever chose the keys. The whole key decides among
/// keys of one number.
#[derive(PartialEq, Eq, PartialOrd, Ord, Drop)]
pub(crate) struct Name {
    /// The word of the text.
    pub word: u64,
    /// The texts of the key, each quoted, joined.
    pub text: Text,
}

impl Name {
    pub fn of(alloc: Global, key: &[Text]) -> Result<Name, AllocError>
        ensures { IfOk result (λ name. IsNameOf name key.now) }
    {
        let mut joined = Vec::new(alloc);
        for text in key {
            push_quoted(&mut joined, alloc, text)?;
        }
        let text = Text::from_vec(joined)?;
        Ok(Name {
            word: key_word(&text),
            text,
        })
    }

    pub fn copy(&self) -> Result<Name, AllocError>
        ensures { IfOk result (λ name. name ≡ self.now) }
    {
        Ok(Name {
            word: self.word,
            text: self.text.copy()?,
        })
    }
}

fn push_quoted(joined: &mut Vec<u8>, alloc: Global, text: &Text) -> Result<(), AllocError>
    ensures joined { OnOk result (joined.new.items ≡ joined.old.items ++ quote_of text.now) }
    ensures bytes { (i : ℕ) → slice_index_or text.now i 0 < 256 }
{
    let bytes = text.bytes();
    joined.extend_from_slice(quote(alloc, bytes)?.bytes())
}
