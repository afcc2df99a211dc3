//! Connections of clients, served over a shared cache.
//!
//! Contract for the layer above: `serve_connection` reads a connection's requests, leads a round for each over the shared cache, tells
//! its keeper each as it was led, shuts the link, and hands it to the keeper. The rounds' requests are, in order, those in the link's
//! bytes; each round is a response over the history that the caller's pass has then seen; the rounds' places, joined, are those that
//! the pass has gained; the link took what the rounds sent, and then the text of the status 400 where what came is no request
//! (`specs/Transcripts.antt`). It keeps nothing of a connection itself.
#![tactic(auto)]

mod keeping;
mod recorder;
mod responding;
mod serving;
mod tally;

pub use keeping::{Event, Keeper};
pub use recorder::Recorder;
pub use serving::serve_connection;
pub use tally::Tally;
