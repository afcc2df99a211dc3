// Kinds of faults of a journal.
ghost use Rattle.std.specs.Prelude.{◌≡◌};
ghost use Rattle.audit_laws.specs.Faults.{kind_number};

/// What is wrong at a line of a journal. Of several kinds that hold there, the first one is told.
#[derive(Clone, Copy, Debug, PartialEq, Eq)]
pub enum Kind {
    /// The line is none, or has no place here: a first line stands first, and no other one does. Or the journal is too long.
    Text,
    /// The moment goes back.
    Moment,
    /// The lookup of a caller that waits for an open fetch.
    Wait,
    /// The entry doesn't fit the limit.
    Bytes,
    /// No such reply may be given.
    Reply,
    /// A segment ends while a round or a fetch is open.
    Cut,
    /// The journal isn't closed, or a line stands behind its end.
    End,
}

impl Kind {
    /// The number of the kind, 1 to 7 in the order above.
    pub fn number(self) -> u8
        ensures { result ≡ kind_number self }
    {
        match self {
            Kind::Text => 1,
            Kind::Moment => 2,
            Kind::Wait => 3,
            Kind::Bytes => 4,
            Kind::Reply => 5,
            Kind::Cut => 6,
            Kind::End => 7,
        }
    }
}
