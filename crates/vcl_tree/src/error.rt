// Why a text isn't taken.
ghost use Rattle.std.specs.Prelude.{◌≡◌, ◌⊎◌, ℕ, IsTrue};
ghost use Rattle.vcl_tree.specs.declared.error.VclError.TheVariants.{NoMemory, Refused};

use std::alloc::{AllocError, AllocFailed};
use std::error::Error;
use std::fmt;

/// What is wrong with a VCL text.
#[derive(Clone, Copy, Debug, PartialEq, Eq)]
pub enum Refusal {
    /// A byte that begins no token, a comment or string that doesn't end, a number out of range.
    Token,
    /// A token behind which no text is in the grammar.
    Syntax,
    /// A version other than 4.0 and 4.1.
    Version,
    /// Blocks and parentheses that nest more than 64 deep.
    TooDeep,
    /// A name that isn't declared.
    Unknown,
    /// A name or an attribute that comes twice.
    Twice,
    /// A value of another type, or another number of arguments.
    Kind,
    /// A variable, a function or a word of return that isn't allowed there.
    NotHere,
    /// A subroutine that reaches itself.
    Recursion,
    /// A text that is no pattern.
    Pattern,
    /// No backend at all.
    NoBackend,
    /// A text over its limit.
    TooLong,
}

impl Refusal {
    /// The number by which a refusal is shown: 1 to 12.
    pub fn number(self) -> u8
        ensures { result ≡ number_of self }
    {
        match self {
            Refusal::Token => 1,
            Refusal::Syntax => 2,
            Refusal::Version => 3,
            Refusal::TooDeep => 4,
            Refusal::Unknown => 5,
            Refusal::Twice => 6,
            Refusal::Kind => 7,
            Refusal::NotHere => 8,
            Refusal::Recursion => 9,
            Refusal::Pattern => 10,
            Refusal::NoBackend => 11,
            Refusal::TooLong => 12,
        }
    }
}

ghost use Rattle.vcl_tree.specs.Numbers.{number_of};
ghost use Rattle.vcl_tree.specs.Faults.{comes_before};
ghost use Rattle.vcl_tree.specs.declared.error.Fault as fault;

impl fmt::Display for Refusal {
    fn fmt<W: fmt::Write>(&self, f: &mut fmt::Formatter<W>) -> fmt::Result {
        let text = match self {
            Refusal::Token => "no token",
            Refusal::Syntax => "not in the grammar",
            Refusal::Version => "no version 4.0 or 4.1",
            Refusal::TooDeep => "nested more than 64 deep",
            Refusal::Unknown => "not declared",
            Refusal::Twice => "declared twice",
            Refusal::Kind => "of another type or number of arguments",
            Refusal::NotHere => "not allowed here",
            Refusal::Recursion => "a subroutine that reaches itself",
            Refusal::Pattern => "no pattern",
            Refusal::NoBackend => "no backend",
            Refusal::TooLong => "too long",
        };
        write!(f, "{text}")
    }
}

/// A refusal at a place of the text.
#[derive(Clone, Copy, Debug, PartialEq, Eq)]
pub struct Fault {
    pub place: u32,
    pub kind: Refusal,
}

impl Fault {
    /// Whether it is told before the other: at a lesser place, or there with a lesser number.
    pub fn comes_before(self, other: Fault) -> bool
        ensures { result ≡ comes_before self other }
    {
        self.place < other.place
            || self.place == other.place && self.kind.number() < other.kind.number()
    }
}

/// Why a VCL text gave no answer.
#[derive(Clone, Copy, Debug, PartialEq, Eq)]
pub enum VclError {
    /// The text is refused, for this cause at this byte of it.
    Refused { kind: Refusal, place: u32 },
    /// There was no memory for the answer.
    NoMemory,
}

impl fmt::Display for VclError {
    fn fmt<W: fmt::Write>(&self, f: &mut fmt::Formatter<W>) -> fmt::Result {
        match self {
            VclError::Refused { kind, place } => write!(f, "{kind}, at byte {place}"),
            VclError::NoMemory => write!(f, "out of memory"),
        }
    }
}

impl Error for VclError {}

impl From<Fault> for VclError {
    ghost from_gives = { λ f e. e ≡ Refused f.kind f.place };

    fn from(fault: Fault) -> VclError {
        VclError::Refused {
            kind: fault.kind,
            place: fault.place,
        }
    }
}

impl From<AllocError> for VclError {
    ghost from_gives = { λ _ e. e ≡ NoMemory };

    fn from(_e: AllocError) -> VclError {
        VclError::NoMemory
    }
}

impl<T: Drop> From<AllocFailed<T>> for VclError {
    ghost from_gives = { λ _ e. e ≡ NoMemory };

    fn from(_e: AllocFailed<T>) -> VclError {
        VclError::NoMemory
    }
}

/// Of two faults that differ, one comes before the other, and of three the first before the last.
pub fn one_order()
    ensures not_itself { (a : fault.Fault) → ¬ IsTrue (comes_before a a) }
    ensures in_turn { (a b c : fault.Fault) → IsTrue (comes_before a b) → IsTrue (comes_before b c) → IsTrue (comes_before a c) }
    ensures one_first { (a b : fault.Fault) → (a ≡ b) ⊎ (IsTrue (comes_before a b) ⊎ IsTrue (comes_before b a)) }
{}
