// Why a round was cut short.
ghost use Rattle.std.specs.Prelude.{◌≡◌};
ghost use Rattle.round_lead.specs.Endings.{answered_of, cut_by};

use cache_law::StepError;
use connection::Answered;

#[derive(Clone, Copy, Debug, PartialEq, Eq)]
pub(crate) enum Cut {
    NoMemory,
    /// A call didn't fit the history.
    HistoryFull,
    /// The response wasn't taken whole.
    WriteFault,
}

/// How a round ended that was cut short so.
pub(crate) fn ended_by(cut: Cut) -> Answered
    ensures { result ≡ answered_of cut }
{
    match cut {
        Cut::NoMemory => Answered::NoMemory,
        Cut::HistoryFull => Answered::HistoryFull,
        Cut::WriteFault => Answered::WriteFault,
    }
}

/// How a round is cut short by a call that made no entry. No segment ends before a call, since none are kept.
pub(crate) fn cut_at(error: StepError) -> Cut
    ensures { result ≡ cut_by error }
{
    match error {
        StepError::HistoryFull | StepError::SegmentFull => Cut::HistoryFull,
        StepError::NoMemory => Cut::NoMemory,
    }
}
