// A body, taken in pieces.
ghost use Rattle.std.specs.Prelude.{◌≡◌, ◌≢◌, ◌-◌, ◌≤◌, ◌<◌, ◌⊎◌, ◌↔◌, ◌++◌, ℕ, List, [], Some, None, take, length, IsTrue, IfOk, IfErr, IsErrOf, OnErr, Ok, Err};
ghost use Rattle.units.specs.Outcomes.{Gives};
ghost use Rattle.http_bodies.specs.Reading.{ReaderState, Makes, Follows, Starts, refusal, is_whole, state};
ghost use Rattle.http_bodies.specs.Places.{IsSound, IsReader};
ghost use Rattle.http_bodies.specs.Answers.{HasEndWithin, GoesOn, Takes, Refuses};
ghost use Rattle.http_bodies.specs.declared.place.Place.{Place};
ghost use Rattle.http_bodies.specs.declared.framing.BodyError.{BodyError};
ghost use Rattle.http_bodies.specs.declared.framing.BodyError.TheVariants as fault;

use crate::line::MAX_SPARE;
use crate::place::{LinePart, Place};
use crate::steps::step;
use crate::{BodyError, Framing};
use std::alloc::Global;
use std::marker::Model;
use units::Text;

/// A body that is taken in pieces, and the limit of its length. Clauses see how it was refused, whether it is whole,
/// and what may still come of it.
#[derive(Drop)]
pub struct BodyReader {
    place: Place,
    kept: Vec<u8>,
    limit: u64,
}

impl Model for BodyReader {
    ghost use Rattle.http_bodies.specs.Reading.{ReaderState};
    ghost use Rattle.http_bodies.specs.Places.{IsReader};

    ghost Value = { ReaderState };

    ghost view = { λ r. record { place = r.place; kept = r.kept.items; limit = r.limit } };

    ghost invariant = { λ r. IsReader r.place r.kept.items r.limit };
}

// Where a reader of a body begins.
fn first_place(framing: Framing, limit: u64) -> Place
    ensures sound { IsReader result [] limit }
    ensures starts { Starts framing limit (state result [] limit) }
{
    match framing {
        Framing::Nothing => Place::Whole,
        Framing::Length(length) => {
            if length > limit {
                Place::Refused(BodyError::TooLarge)
            } else if length == 0 {
                Place::Whole
            } else {
                Place::Sized(length)
            }
        }
        Framing::Chunked => Place::Line(LinePart::Size {
            digits: 0,
            size: 0,
            spare: MAX_SPARE,
        }),
        Framing::UntilEnd => Place::Open,
    }
}

impl BodyReader {
    /// A reader of a body with this framing, of at most `limit` bytes. Where the framing's length is over
    /// the limit, it has refused the body already.
    pub fn of(alloc: Global, framing: Framing, limit: u64) -> BodyReader
        ensures starts { Starts framing limit result }
    {
        BodyReader {
            place: first_place(framing, limit),
            kept: Vec::new(alloc),
            limit,
        }
    }

    /// Takes bytes from the front of the piece, up to the body's end, and answers how many. A body that
    /// goes on to the end of the connection takes them all. After a refusal it refuses again; after want
    /// of memory it is as before.
    pub fn feed(&mut self, piece: &[u8]) -> Result<usize, BodyError>
        ensures taken { IfOk result (λ n. Takes self.old piece.now n × Follows self.old self.new (take n piece.now)) }
        ensures end { IfOk result (λ n. n < length piece.now → IsTrue (is_whole self.new)) }
        ensures refused { IfErr result (λ e. e ≢ BodyError.NoMemory → (refusal self.new ≡ Some e)
            × ((refusal self.old ≡ Some e) ⊎ Refuses self.old piece.now e)) }
        ensures again { (e : BodyError) → refusal self.old ≡ Some e → (result ≡ Err e) × (self.new ≡ self.old) }
        ensures no_memory { IsErrOf result BodyError.NoMemory → self.new ≡ self.old }
    {
        if let Place::Refused(error) = self.place {
            return Err(error);
        }
        let place = self.place;
        let before = self.kept.len();
        let mut at = 0;
        while at < piece.len() && !self.done() {
            match self.take_step(&piece[at..]) {
                Ok(count) => at += count,
                Err(error) => {
                    if error == BodyError::NoMemory {
                        self.kept.truncate(before);
                        self.place = place;
                    }
                    return Err(error);
                }
            }
        }
        Ok(at)
    }

    /// Whether the body is whole, so that no byte more belongs to it. One that goes on to the end of the
    /// connection never is.
    pub fn done(&self) -> bool
        ensures whole { result ≡ is_whole self.now }
        ensures over { refusal self.now ≡ None → IsTrue result ↔ ¬ (GoesOn self.now []) }
    {
        matches!(self.place, Place::Whole)
    }

    /// The body, if the bytes so far are a whole one.
    pub fn finish(self) -> Result<Text, BodyError>
        ensures whole { IfOk result (λ body. Makes self [] body) }
        ensures found { (body : List ℕ) → Makes self [] body → Gives fault.NoMemory result body }
        ensures refused { (e : BodyError) → refusal self ≡ Some e → result ≡ Err e }
        ensures early { IsErrOf result BodyError.Early → HasEndWithin self [] }
        ensures kinds { IfErr result (λ e. (e ≡ BodyError.Early) ⊎ (e ≡ BodyError.NoMemory) ⊎ (refusal self ≡ Some e)) }
    {
        match self.place {
            Place::Whole | Place::Open => Ok(Text::from_vec(self.kept)?),
            Place::Refused(error) => Err(error),
            _ => Err(BodyError::Early),
        }
    }

    fn take_step(&mut self, piece: &[u8]) -> Result<usize, BodyError>
        requires some { 0 < length piece.now }
        requires open { self.old.place ≢ Place.Whole }
        requires sound { IsSound self.old.place (self.old.limit - length self.old.kept) }
        ensures taken { IfOk result (λ n. (0 < n) × (n ≤ length piece.now) × Follows self.old self.new (take n piece.now)) }
        ensures sound { IfOk result (λ _. IsSound self.new.place (self.new.limit - length self.new.kept) × (length self.new.kept ≤ self.new.limit)) }
        ensures grows { IfOk result (λ _. (more : List ℕ) × (self.new.kept ≡ self.old.kept ++ more)) }
        ensures refused { IfErr result (λ e. e ≢ BodyError.NoMemory → (self.new.place ≡ Place.Refused e) × Refuses self.old piece.now e) }
        ensures no_memory { IsErrOf result BodyError.NoMemory → self.new ≡ self.old }
    {
        match step(self.place, &mut self.kept, self.limit, piece) {
            Ok((count, place)) => {
                self.place = place;
                Ok(count)
            }
            Err(error) => {
                if error != BodyError::NoMemory {
                    self.place = Place::Refused(error);
                }
                Err(error)
            }
        }
    }
}
