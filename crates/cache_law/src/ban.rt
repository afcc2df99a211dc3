// Bans as plain data.
ghost use Rattle.std.specs.Prelude.{◌≡◌, IfOk};

use std::alloc::{AllocError, Global};
use units::{Copied, Sequence, Shared, Text};
use vcl_values::Comparison;

/// What a condition of a ban looks at as a text.
#[derive(Drop)]
pub enum TextField {
    /// `req.url`
    RequestUrl,
    /// `req.http.NAME`, with its name.
    RequestHeader(Text),
    /// `obj.status`, as decimal digits.
    ObjectStatus,
    /// `obj.http.NAME`, with its name.
    ObjectHeader(Text),
}

/// How a text is compared with the argument of a condition.
#[derive(Clone, Copy, Debug, PartialEq, Eq)]
pub enum TextOperator {
    /// `==`
    Equal,
    /// `!=`
    NotEqual,
    /// `~`: the argument is a pattern that matches somewhere in the text.
    Matches,
    /// `!~`
    MatchesNot,
}

/// What a condition of a ban looks at as a time of the object.
#[derive(Clone, Copy, Debug, PartialEq, Eq)]
pub enum TimeField {
    /// `obj.ttl`: what was left of the object's lifetime when the ban was issued.
    Ttl,
    /// `obj.age`: how old the object was when the ban was issued.
    Age,
    /// `obj.grace`
    Grace,
    /// `obj.keep`
    Keep,
}

/// One condition of a ban.
#[derive(Drop)]
pub enum Condition {
    OnText {
        field: TextField,
        operator: TextOperator,
        argument: Text,
    },
    OnTime {
        field: TimeField,
        comparison: Comparison,
        milliseconds: i64,
    },
}

/// A ban: its words as it was given, and the conditions that they say. It matches where all of these hold.
#[derive(Drop)]
pub struct Ban {
    pub words: Sequence<Text>,
    pub conditions: Sequence<Condition>,
}

/// A ban that was issued: its number, the first ban having number 1, and the moment of its entry.
#[derive(Drop)]
pub struct Issued {
    pub number: u64,
    pub moment: u64,
    pub ban: Shared<Ban>,
}

impl Issued {
    /// The same again, of the same ban.
    pub fn copy(&self) -> Result<Issued, AllocError>
        ensures { IfOk result (λ issued. issued ≡ self.now) }
    {
        Ok(Issued {
            number: self.number,
            moment: self.moment,
            ban: self.ban.copy()?,
        })
    }
}

impl Copied for Issued {
    fn copied(&self, alloc: Global) -> Result<Self, AllocError> {
        self.copy()
    }
}

/// A line of the list of bans.
#[derive(Drop)]
pub struct BanLine {
    pub issued: Issued,
    /// A later equal ban does the work of this one.
    pub completed: bool,
}

impl Copied for BanLine {
    fn copied(&self, alloc: Global) -> Result<Self, AllocError> {
        Ok(BanLine {
            issued: self.issued.copy()?,
            completed: self.completed,
        })
    }
}
