//! A run whose history is kept in segments, as it goes into a journal.
//!
//! Contract for the layer above: `keep_journal` has a `Stint` done over a cache, again and again: where one ends since its segment is
//! full, that is closed with `cut` in the journal, and the next begins over the reopened cache; the last one is closed with `close`.
//! The segments are one history, each legal from where the one before it ended; the journal gains the text of each once, in order;
//! and each was made by one stint, which began in the base that its segment is legal from (`specs/Spans.antt`). Where a segment can't be
//! written, or memory is wanting, no further stint is done, and the segment is given back. Behind the journal's first line that is the
//! whole journal of the history (`journal_is_closed`).
#![tactic(auto)]

mod cutting;
mod ending;
mod keeping;
mod laws;
mod stint;

pub use ending::Ending;
pub use keeping::keep_journal;
pub use laws::journal_is_closed;
pub use stint::{Next, Stint};
