// The one form in which each command's outcome is handed out.
ghost use Rattle.std.specs.Prelude.{◌≡◌, option_map};
ghost use Rattle.varn_command.specs.Outcomes.{code_of, expected_in, journal_note, of_audited, of_played, of_served, of_unasked, status_of_audited, status_of_played, status_of_served, unasked_status};

use cache_law::Entry;
use command_line::OrderError;
use console_link::ConsoleTalk;
use journal_audit::Expected;
use server::Tally;
use std::alloc::Global;
use units::{Sequence, Text};
use varn_audit::{Audited, Note as JournalNote, Status as AuditedStatus};
use varn_program::{Outcome as Played, Status as PlayedStatus};
use varn_serve::{Served, Status as ServedStatus};
use vcl_tree::Refusal;

/// How a run ended.
#[derive(Clone, Copy, Debug, PartialEq, Eq)]
pub enum Status {
    /// The run was whole.
    Done,
    /// The words aren't those of a command.
    Words,
    /// The session has no reading, or is idle or unanswered at the noted line.
    Session,
    /// The source or the file of the VCL couldn't be read.
    ReadFault,
    /// The sink failed.
    WriteFault,
    NoMemory,
    /// Listening failed.
    ListenFault,
    /// There is no file of the VCL, or its text is refused at the noted place.
    Vcl,
    /// A call didn't fit the history.
    HistoryFull,
    /// The journal isn't that of a legal run, from the noted line on.
    Illegal,
}

impl Status {
    /// The number that the program ends with.
    pub fn code(self) -> u8
        ensures { result ≡ code_of self }
    {
        match self {
            Status::Done => 0,
            Status::Words => 2,
            Status::Session => 3,
            Status::ReadFault => 4,
            Status::WriteFault => 5,
            Status::NoMemory => 6,
            Status::ListenFault => 7,
            Status::Vcl => 8,
            Status::HistoryFull => 9,
            Status::Illegal => 10,
        }
    }

    fn of_played(status: PlayedStatus) -> Status
        ensures { result ≡ status_of_played status }
    {
        match status {
            PlayedStatus::Done => Status::Done,
            PlayedStatus::Words => Status::Words,
            PlayedStatus::Session => Status::Session,
            PlayedStatus::ReadFault => Status::ReadFault,
            PlayedStatus::WriteFault => Status::WriteFault,
            PlayedStatus::NoMemory => Status::NoMemory,
            PlayedStatus::HistoryFull => Status::HistoryFull,
        }
    }

    fn of_served(status: ServedStatus) -> Status
        ensures { result ≡ status_of_served status }
    {
        match status {
            ServedStatus::Done => Status::Done,
            ServedStatus::ReadFault => Status::ReadFault,
            ServedStatus::WriteFault => Status::WriteFault,
            ServedStatus::NoMemory => Status::NoMemory,
            ServedStatus::ListenFault => Status::ListenFault,
            ServedStatus::Vcl => Status::Vcl,
            ServedStatus::HistoryFull => Status::HistoryFull,
        }
    }

    fn of_audited(status: AuditedStatus) -> Status
        ensures { result ≡ status_of_audited status }
    {
        match status {
            AuditedStatus::Legal => Status::Done,
            AuditedStatus::Illegal => Status::Illegal,
            AuditedStatus::ReadFault => Status::ReadFault,
            AuditedStatus::WriteFault => Status::WriteFault,
            AuditedStatus::NoMemory => Status::NoMemory,
        }
    }

    fn of_unasked(error: OrderError) -> Status
        ensures { result ≡ unasked_status error }
    {
        match error {
            OrderError::Refused(_) => Status::Words,
            OrderError::NoMemory => Status::NoMemory,
        }
    }
}

/// What is to blame.
#[derive(Clone, Copy, Debug, PartialEq, Eq)]
pub enum Note {
    /// A line of the session or of the journal, counted from 1, and the number of the kind of its fault.
    Line { line: u32, kind: u8 },
    /// A byte of the VCL, and why it is refused there.
    Place { place: u32, kind: Refusal },
}

/// What a probe of a backend came to.
#[derive(Drop)]
pub struct Probed {
    pub backend: Text,
    pub good: bool,
}

/// How a run ended, what is to blame, what was expected at that line of a journal, the history of its cache, how many connections a
/// server served and what was counted of them, what was said at its console, for each `lurk` of a session how many objects the lurker
/// tested, and what the probes came to. What a
/// command doesn't have is empty.
#[derive(Drop)]
pub struct Outcome {
    pub status: Status,
    pub note: Option<Note>,
    pub expected: Option<Expected>,
    pub history: Sequence<Entry>,
    pub connections: u64,
    pub tally: Tally,
    pub console: Sequence<ConsoleTalk>,
    pub swept: Sequence<u32>,
    pub probed: Sequence<Probed>,
}

// What is to blame for a journal that isn't legal, and what was expected there.
fn blamed(note: Option<JournalNote>) -> (Option<Note>, Option<Expected>)
    ensures note { result.0 ≡ option_map journal_note note }
    ensures expected { result.1 ≡ option_map expected_in note }
{
    match note {
        Some(note) => {
            let line = Note::Line {
                line: note.line,
                kind: note.kind.number(),
            };
            (Some(line), Some(note.expected))
        }
        None => (None, None),
    }
}

impl Outcome {
    pub(crate) fn of_played(alloc: Global, played: Played) -> Outcome
        ensures { result ≡ of_played played }
    {
        let Played {
            status,
            note,
            history,
            swept,
        } = played;
        let note = match note {
            Some(note) => Some(Note::Line {
                line: note.line,
                kind: note.kind,
            }),
            None => None,
        };
        Outcome {
            status: Status::of_played(status),
            note,
            expected: None,
            history,
            connections: 0,
            tally: Tally::none(),
            console: Sequence::new(alloc),
            swept,
            probed: Sequence::new(alloc),
        }
    }

    pub(crate) fn of_served(alloc: Global, served: Served<Tally>) -> Outcome
        ensures { result ≡ of_served served }
    {
        let Served {
            status,
            note,
            history,
            keepers: _,
            connections,
            tally,
            console,
        } = served;
        let note = match note {
            Some(note) => Some(Note::Place {
                place: note.place,
                kind: note.kind,
            }),
            None => None,
        };
        Outcome {
            status: Status::of_served(status),
            note,
            expected: None,
            history,
            connections,
            tally,
            console,
            swept: Sequence::new(alloc),
            probed: Sequence::new(alloc),
        }
    }

    pub(crate) fn of_audited(alloc: Global, audited: Audited) -> Outcome
        ensures { result ≡ of_audited audited }
    {
        let Audited { status, note } = audited;
        let (note, expected) = blamed(note);
        Outcome {
            status: Status::of_audited(status),
            note,
            expected,
            history: Sequence::new(alloc),
            connections: 0,
            tally: Tally::none(),
            console: Sequence::new(alloc),
            swept: Sequence::new(alloc),
            probed: Sequence::new(alloc),
        }
    }

    pub(crate) fn of_unasked(alloc: Global, error: OrderError) -> Outcome
        ensures { result ≡ of_unasked error }
    {
        Outcome {
            status: Status::of_unasked(error),
            note: None,
            expected: None,
            history: Sequence::new(alloc),
            connections: 0,
            tally: Tally::none(),
            console: Sequence::new(alloc),
            swept: Sequence::new(alloc),
            probed: Sequence::new(alloc),
        }
    }
}
