// Words as they are read one by one.
ghost use Rattle.std.specs.Prelude.{◌≡◌, drop, length, Option, Ok};
ghost use Rattle.journal_reader.specs.Reading.{Gives, count_at, equals_at, is_absent, key_of, long_at, middle_at, named, number_or_absent_at, quoted_at, short_at, signed_at, star_behind, text_at, text_or_absent_at, time_at, time_or_absent_at, truth_at, truth_of};

use crate::fault::{Halt, Stop, Wanted};
use journal_text::Word;
use std::marker::Model;
use units::Text;

/// The words of a line that aren't read yet.
#[derive(Drop)]
pub(crate) struct Cursor<'w> {
    words: &'w [Word],
}

impl<'w> Model for Cursor<'w> {
    ghost use Rattle.std.specs.Prelude.{List};
    ghost use Rattle.journal_text.specs.declared.word.Word.{Word};

    ghost Value = { List Word };

    ghost view = { λ c. c.words.now };
}

#[tactic(auto, unfolding(crate::specs::Reading::truth_of))]
fn truth_of_number(number: u64) -> Option<bool>
    ensures { result ≡ truth_of number }
{
    match number {
        0 => Some(false),
        1 => Some(true),
        _ => None,
    }
}

impl<'w> Cursor<'w> {
    pub fn new(words: &'w [Word]) -> Cursor<'w>
        ensures { result ≡ words.now }
    {
        Cursor { words }
    }

    // Something else is wanted here.
    fn stop(&self, wanted: Wanted) -> Stop
        ensures { result ≡ record { wanted = wanted; left = length self.now } }
    {
        Stop {
            wanted,
            left: self.words.len(),
        }
    }

    /// The key that stands first; nothing where none does.
    #[tactic(auto, unfolding(crate::specs::Reading::key_of))]
    pub fn key(&self) -> &'w [u8]
        ensures { result.now ≡ key_of self.now }
    {
        match self.words.first() {
            Some(Word::Key(text)) => text.bytes(),
            _ => b"",
        }
    }

    /// Goes behind the word that stands first, if there is one.
    pub fn skip(&mut self)
        ensures { self.new ≡ drop 1 self.old }
    {
        if let Some((_, rest)) = self.words.split_first() {
            self.words = rest;
        }
    }

    /// What the key that stands first names.
    #[tactic(auto, unfolding(crate::specs::Reading::named))]
    pub fn named<X: Drop>(&mut self, wanted: Wanted, found: Option<X>) -> Result<X, Halt>
        ensures { Gives result self.new (named wanted found self.old) }
    {
        match found {
            Some(found) => {
                self.skip();
                Ok(found)
            }
            None => Err(Halt::Stopped(self.stop(wanted))),
        }
    }

    #[tactic(auto, unfolding(crate::specs::Reading::long_at))]
    pub fn long(&mut self) -> Result<u64, Halt>
        ensures { Gives result self.new (long_at self.old) }
    {
        match self.words.first() {
            Some(Word::Long(number)) => {
                self.skip();
                Ok(*number)
            }
            _ => Err(Halt::Stopped(self.stop(Wanted::Number))),
        }
    }

    #[tactic(auto, unfolding(crate::specs::Reading::middle_at))]
    pub fn middle(&mut self) -> Result<u32, Halt>
        ensures { Gives result self.new (middle_at self.old) }
    {
        if let Some(Word::Long(number)) = self.words.first() {
            if let Ok(number) = u32::try_from(*number) {
                self.skip();
                return Ok(number);
            }
        }
        Err(Halt::Stopped(self.stop(Wanted::Middle)))
    }

    #[tactic(auto, unfolding(crate::specs::Reading::short_at))]
    pub fn short(&mut self) -> Result<u16, Halt>
        ensures { Gives result self.new (short_at self.old) }
    {
        if let Some(Word::Long(number)) = self.words.first() {
            if let Ok(number) = u16::try_from(*number) {
                self.skip();
                return Ok(number);
            }
        }
        Err(Halt::Stopped(self.stop(Wanted::Short)))
    }

    #[tactic(auto, unfolding(crate::specs::Reading::signed_at))]
    fn signed(&mut self, wanted: Wanted) -> Result<i64, Halt>
        ensures { Gives result self.new (signed_at wanted self.old) }
    {
        match self.words.first() {
            Some(Word::Long(number)) => {
                if let Ok(number) = i64::try_from(*number) {
                    self.skip();
                    return Ok(number);
                }
                Err(Halt::Stopped(self.stop(wanted)))
            }
            Some(Word::Signed(number)) => {
                self.skip();
                Ok(*number)
            }
            _ => Err(Halt::Stopped(self.stop(wanted))),
        }
    }

    #[tactic(auto, unfolding(crate::specs::Reading::time_at))]
    pub fn time(&mut self) -> Result<i64, Halt>
        ensures { Gives result self.new (time_at self.old) }
    {
        self.signed(Wanted::Time)
    }

    #[tactic(auto, unfolding(crate::specs::Reading::text_at))]
    fn text_as(&mut self, wanted: Wanted) -> Result<Text, Halt>
        ensures { Gives result self.new (text_at wanted self.old) }
    {
        match self.words.first() {
            Some(Word::Quoted(text)) => {
                self.skip();
                Ok(text.copy()?)
            }
            _ => Err(Halt::Stopped(self.stop(wanted))),
        }
    }

    #[tactic(auto, unfolding(crate::specs::Reading::quoted_at))]
    pub fn text(&mut self) -> Result<Text, Halt>
        ensures { Gives result self.new (quoted_at self.old) }
    {
        self.text_as(Wanted::Text)
    }

    #[tactic(auto, unfolding(crate::specs::Reading::truth_at))]
    pub fn truth(&mut self) -> Result<bool, Halt>
        ensures { Gives result self.new (truth_at self.old) }
    {
        match self.words.first() {
            Some(Word::Long(number)) => {
                let found = truth_of_number(*number);
                self.named(Wanted::Truth, found)
            }
            _ => Err(Halt::Stopped(self.stop(Wanted::Truth))),
        }
    }

    #[tactic(auto, unfolding(crate::specs::Reading::is_absent))]
    fn is_absent(&self) -> bool
        ensures { result ≡ is_absent self.now }
    {
        self.key() == b"-".as_slice()
    }

    #[tactic(auto, unfolding(crate::specs::Reading::number_or_absent_at))]
    pub fn number_or_absent(&mut self) -> Result<Option<u64>, Halt>
        ensures { Gives result self.new (number_or_absent_at self.old) }
    {
        if let Some(Word::Long(number)) = self.words.first() {
            self.skip();
            return Ok(Some(*number));
        }
        if self.is_absent() {
            self.skip();
            return Ok(None);
        }
        Err(Halt::Stopped(self.stop(Wanted::NumberOrNone)))
    }

    #[tactic(auto, unfolding(crate::specs::Reading::time_or_absent_at))]
    pub fn time_or_absent(&mut self) -> Result<Option<i64>, Halt>
        ensures { Gives result self.new (time_or_absent_at self.old) }
    {
        if self.is_absent() {
            self.skip();
            return Ok(None);
        }
        Ok(Some(self.signed(Wanted::TimeOrNone)?))
    }

    #[tactic(auto, unfolding(crate::specs::Reading::text_or_absent_at))]
    pub fn text_or_absent(&mut self) -> Result<Option<Text>, Halt>
        ensures { Gives result self.new (text_or_absent_at self.old) }
    {
        if self.is_absent() {
            self.skip();
            return Ok(None);
        }
        Ok(Some(self.text_as(Wanted::TextOrNone)?))
    }

    #[tactic(auto, unfolding(crate::specs::Reading::equals_at))]
    pub fn equals(&mut self) -> Result<(), Halt>
        ensures { Gives result self.new (equals_at self.old) }
    {
        if self.key() == b"=".as_slice() {
            self.skip();
            return Ok(());
        }
        Err(Halt::Stopped(self.stop(Wanted::Equals)))
    }

    // Whether there is a `*` behind this number, and what it counts.
    #[tactic(auto, unfolding(crate::specs::Reading::star_behind))]
    fn star(&mut self, number: u64) -> (bool, u64)
        ensures { star_behind number self.old ≡ Ok ((result.0, result.1), self.new) }
    {
        if self.key() == b"*".as_slice() {
            self.skip();
            return (true, number.saturating_sub(1));
        }
        (false, number)
    }

    /// How many fields a response was chosen by, and whether there is a `*` before them.
    #[tactic(auto, unfolding(crate::specs::Reading::count_at))]
    pub fn count(&mut self) -> Result<(bool, u64), Halt>
        ensures { Gives result self.new (count_at self.old) }
    {
        let number = self.long()?;
        Ok(self.star(number))
    }
}
