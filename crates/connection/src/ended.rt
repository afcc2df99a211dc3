// How rounds and connections end.
ghost use Rattle.std.specs.Prelude.{◌≡◌};
ghost use Rattle.connection.specs.Serving.{ending_of};

/// How a round ended.
#[derive(Clone, Copy, Debug, PartialEq, Eq)]
pub enum Answered {
    /// The response was sent whole, and another request may come.
    Kept,
    /// The response was sent whole, and says that the connection closes.
    Closes,
    /// A write failed, and the link's count of failed writes rose.
    WriteFault,
    /// A call of the round didn't fit the history.
    HistoryFull,
    NoMemory,
}

/// How a connection ended.
#[derive(Clone, Copy, Debug, PartialEq, Eq)]
pub enum Ended {
    /// The input ended between requests, or the last response says that the connection closes.
    Closed,
    /// A read failed, and the link's count of failed reads rose.
    ReadFault,
    /// A write failed, and the link's count of failed writes rose.
    WriteFault,
    /// What came is no request.
    BadRequest,
    /// A call of the last round didn't fit the history.
    HistoryFull,
    NoMemory,
}

/// How the connection ends behind a round that ended so. None where it goes on.
pub(crate) fn ending(answered: Answered) -> Option<Ended>
    ensures { result ≡ ending_of answered }
{
    match answered {
        Answered::Kept => None,
        Answered::Closes => Some(Ended::Closed),
        Answered::WriteFault => Some(Ended::WriteFault),
        Answered::HistoryFull => Some(Ended::HistoryFull),
        Answered::NoMemory => Some(Ended::NoMemory),
    }
}
