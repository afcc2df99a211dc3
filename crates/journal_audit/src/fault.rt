// What is told of a bad line.
use audit_laws::Kind;
use journal_reader::Refusal;
use journal_text::Shown;

/// What was expected where a line is bad.
#[derive(Drop)]
pub enum Expected {
    /// A text that is a line: this one is refused so.
    Line(Refusal),
    /// No more bytes than a journal has.
    FewerBytes,
    /// A first line.
    FirstLine,
    /// An entry, or the end of a segment or of the journal.
    LaterLine,
    /// No moment before this one.
    Moment(u64),
    /// No lookup: its caller waits for this fetch.
    Closing(u64),
    /// An entry that fits the limit.
    Fitting,
    /// This reply.
    Reply(Shown),
    /// A list that shows each ban that an object has still to be tested on, and marks those alone that have a newer equal one.
    ListOfBans,
    /// The end of each round and each fetch that is open.
    Closed,
    /// LF.
    LineFeed,
    /// `close`.
    Close,
    /// No line more.
    Nothing,
}

/// What is wrong with a line: the least kind of it, and what was expected.
#[derive(Drop)]
pub struct Fault {
    pub kind: Kind,
    pub expected: Expected,
}
