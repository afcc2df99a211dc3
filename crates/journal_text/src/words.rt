// Words as they are put together.
ghost use Rattle.std.specs.Prelude.{◌≡◌, ◌++◌, ◌∷◌, ◌<◌, [], ℕ, slice_index, true, OnOk};
ghost use Rattle.journal_text.specs.declared.word.Word.TheVariants.{Key, Short, Middle, Long, Signed, Quoted};
ghost use Rattle.journal_text.specs.Words.{AreWords, IsWord, is_key};
ghost use Rattle.journal_text.specs.Grammar.{truth_word, number_or_absent, time_or_absent, text_or_absent};

use crate::Word;
use std::alloc::{AllocError, Global};
use std::marker::Model;
use units::Text;

// Each item of bytes is below 256.
fn are_bytes(bytes: &[u8])
    ensures { (i : ℕ) → slice_index bytes.now i < 256 }
{}

/// The words of a line. Each number has the range of its type.
#[derive(Drop)]
pub(crate) struct Words {
    items: Vec<Word>,
}

impl Model for Words {
    ghost use Rattle.std.specs.Prelude.{List};
    ghost use Rattle.journal_text.specs.declared.word.Word.{Word};
    ghost use Rattle.journal_text.specs.Words.{AreWords};

    ghost Value = { List Word };

    ghost view = { λ words. words.items.items };

    ghost invariant = { λ words. AreWords words.items.items };
}

impl Words {
    pub fn new(alloc: Global) -> Words
        ensures { result ≡ [] }
    {
        Words {
            items: Vec::new(alloc),
        }
    }

    pub fn as_slice(&self) -> &[Word]
        ensures items { result.now ≡ self.now }
        ensures within { AreWords self.now }
    {
        self.items.as_slice()
    }

    fn push(&mut self, word: Word) -> Result<(), AllocError>
        requires { IsWord word }
        ensures { OnOk result (self.new ≡ self.old ++ word ∷ []) }
    {
        match self.items.push(word) {
            Ok(()) => Ok(()),
            Err(_) => Err(AllocError),
        }
    }

    pub fn key(&mut self, alloc: Global, key: &[u8]) -> Result<(), AllocError>
        requires { is_key key.now ≡ true }
        ensures { OnOk result (self.new ≡ self.old ++ Key key.now ∷ []) }
    {
        self.push(Word::Key(Text::of(alloc, key)?))
    }

    pub fn short(&mut self, number: u16) -> Result<(), AllocError>
        ensures { OnOk result (self.new ≡ self.old ++ Short number ∷ []) }
    {
        self.push(Word::Short(number))
    }

    pub fn middle(&mut self, number: u32) -> Result<(), AllocError>
        ensures { OnOk result (self.new ≡ self.old ++ Middle number ∷ []) }
    {
        self.push(Word::Middle(number))
    }

    pub fn long(&mut self, number: u64) -> Result<(), AllocError>
        ensures { OnOk result (self.new ≡ self.old ++ Long number ∷ []) }
    {
        self.push(Word::Long(number))
    }

    pub fn signed(&mut self, number: i64) -> Result<(), AllocError>
        ensures { OnOk result (self.new ≡ self.old ++ Signed number ∷ []) }
    {
        self.push(Word::Signed(number))
    }

    pub fn quoted(&mut self, text: &Text) -> Result<(), AllocError>
        ensures { OnOk result (self.new ≡ self.old ++ Quoted text.now ∷ []) }
    {
        are_bytes(text.bytes());
        self.push(Word::Quoted(text.copy()?))
    }

    pub fn truth(&mut self, truth: bool) -> Result<(), AllocError>
        ensures { OnOk result (self.new ≡ self.old ++ truth_word truth ∷ []) }
    {
        self.long(u64::from(truth))
    }

    pub fn number_or_absent(&mut self, alloc: Global, number: Option<u64>) -> Result<(), AllocError>
        ensures { OnOk result (self.new ≡ self.old ++ number_or_absent number ∷ []) }
    {
        match number {
            Some(number) => self.long(number),
            None => self.key(alloc, b"-"),
        }
    }

    pub fn time_or_absent(&mut self, alloc: Global, time: Option<i64>) -> Result<(), AllocError>
        ensures { OnOk result (self.new ≡ self.old ++ time_or_absent time ∷ []) }
    {
        match time {
            Some(time) => self.signed(time),
            None => self.key(alloc, b"-"),
        }
    }

    pub fn text_or_absent(&mut self, alloc: Global, text: &Option<Text>) -> Result<(), AllocError>
        ensures { OnOk result (self.new ≡ self.old ++ text_or_absent text.now ∷ []) }
    {
        match text {
            Some(text) => self.quoted(text),
            None => self.key(alloc, b"-"),
        }
    }
}
