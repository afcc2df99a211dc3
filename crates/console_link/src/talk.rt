// What is kept of a console's connection.
use units::Text;

/// A line, and how it was answered.
#[derive(Drop)]
pub struct ConsoleLine {
    /// The line without its LF, and without a CR before that.
    pub line: Text,
    /// The moment of the line's entry; where it made no call, a reading of the clock.
    pub moment: u64,
    /// The place of the line's entry. None where it made no call.
    pub place: Option<u64>,
    /// The answer. It is empty where memory for it was wanting behind the line's call.
    pub sent: Text,
}

/// How a console's connection ended.
#[derive(Clone, Copy, Debug, PartialEq, Eq)]
pub enum ConsoleEnd {
    /// The last line is `quit`.
    Quit,
    /// The input ended. A line that was begun there is passed over.
    Closed,
    /// A line is over its limit.
    TooLong,
    /// A read failed, and the link's count of failed reads rose.
    ReadFault,
    /// A write failed, and the link's count of failed writes rose.
    WriteFault,
    /// The call of the next line didn't fit the history.
    HistoryFull,
    NoMemory,
}

/// A console's connection: its lines, and how it ended.
#[derive(Drop)]
pub struct ConsoleTalk {
    pub lines: Vec<ConsoleLine>,
    pub ended: ConsoleEnd,
}
