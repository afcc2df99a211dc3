// How a server's run ends.
ghost use Rattle.std.specs.Prelude.{◌≡◌};
ghost use Rattle.varn_serve.specs.Statuses.{code_of};

use cache_law::Entry;
use console_link::ConsoleTalk;
use server::Tally;
use units::Sequence;
use vcl_tree::Refusal;

/// How a run ended.
#[derive(Clone, Copy, Debug, PartialEq, Eq)]
pub enum Status {
    /// The run was whole.
    Done,
    /// The file of the VCL couldn't be read.
    ReadFault,
    /// The sink failed.
    WriteFault,
    NoMemory,
    /// Listening failed.
    ListenFault,
    /// There is no file of the VCL, or its text is refused at the noted place.
    Vcl,
    /// A call of a connection's last round, or of a console's next line, didn't fit the history.
    HistoryFull,
}

impl Status {
    /// The number that the program ends with.
    pub fn code(self) -> u8
        ensures { result ≡ code_of self }
    {
        match self {
            Status::Done => 0,
            Status::ReadFault => 4,
            Status::WriteFault => 5,
            Status::NoMemory => 6,
            Status::ListenFault => 7,
            Status::Vcl => 8,
            Status::HistoryFull => 9,
        }
    }
}

/// Why a text of VCL is refused, and at which byte of it.
#[derive(Clone, Copy, Debug, PartialEq, Eq)]
pub struct VclNote {
    pub place: u32,
    pub kind: Refusal,
}

/// How a run ended, what its VCL is refused for, the history of its cache, the workers' keepers, how many connections were served,
/// what the keepers counted, and what was said at the console.
#[derive(Drop)]
pub struct Served<N> {
    pub status: Status,
    pub note: Option<VclNote>,
    pub history: Sequence<Entry>,
    pub keepers: Sequence<N>,
    pub connections: u64,
    pub tally: Tally,
    pub console: Sequence<ConsoleTalk>,
}
