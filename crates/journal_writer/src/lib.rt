//! The journal of a run, as it goes into a sink.
//!
//! Contract for the layer above: `write_first` writes the first line of a journal, and `write_segment` the lines of one segment of the
//! history with the line that closes it, each the text that `journal_text` gives them. A fault of the sink and want of memory leave
//! a front of that text. Written one behind another they are the whole journal (`journal_is_its_segments`). No text of a segment
//! stands in memory as a whole.
#![tactic(auto)]

mod closing;
mod error;
mod laws;
mod pieces;
mod writing;

pub use closing::Closing;
pub use error::JournalError;
pub use laws::journal_is_its_segments;
pub use writing::{write_first, write_segment};
