// How a journal ends.
use cache_law::Entry;
use journal_writer::JournalError;
use units::Sequence;

/// The last segment of a run, and why the journal isn't closed behind it, if it isn't: it couldn't be written further, or there was no
/// memory to go on.
#[derive(Drop)]
pub struct Ending {
    pub history: Sequence<Entry>,
    pub unwritten: Option<JournalError>,
}
