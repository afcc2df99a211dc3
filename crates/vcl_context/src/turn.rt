// A turn of a run: it wants something done, or it ends.
use crate::Context;
use units::Text;

/// What a run wants done before it goes on.
#[derive(Drop)]
pub enum Command {
    /// A ban of this text, if the text is one.
    Ban(Text),
    /// A purge of these keys, separated by blanks and commas.
    Xkey { keys: Text, soft: bool },
}

/// What a run is given: at first, after a ban, and after a purge the count.
#[derive(Clone, Copy, Debug, PartialEq, Eq)]
pub enum Answer {
    Begin,
    Done,
    Number(i64),
}

/// What a subroutine returns. A status is one from 200 to 999, and a reason one that a status line carries.
#[derive(Drop)]
pub enum Return {
    Hash,
    Pass,
    /// `pass` with a time in milliseconds.
    PassFor(i64),
    Purge,
    /// A status and a reason.
    Synth(i64, Text),
    Restart,
    Fail,
    Lookup,
    Deliver,
    Fetch,
    /// A status and a reason.
    Error(i64, Text),
    Abandon,
    Retry,
    Ok,
}

#[derive(Drop)]
pub enum Turn {
    Need(Command),
    End(Return, Context),
}
