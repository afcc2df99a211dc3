// How an audit ends.
use audit_laws::Kind;
use journal_audit::Expected;

#[derive(Clone, Copy, Debug, PartialEq, Eq)]
pub enum Status {
    /// The journal is that of a lawful history.
    Legal,
    /// It isn't, from the noted line on.
    Illegal,
    /// The source failed.
    ReadFault,
    /// The sink failed.
    WriteFault,
    NoMemory,
}

/// A line of the journal, counted from 1, the least kind of what is wrong with it, and what was expected there.
#[derive(Drop)]
pub struct Note {
    pub line: u32,
    pub kind: Kind,
    pub expected: Expected,
}

/// How an audit ended, and the line that is to blame.
#[derive(Drop)]
pub struct Audited {
    pub status: Status,
    pub note: Option<Note>,
}
