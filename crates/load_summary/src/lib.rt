//! What a load came to: counts over its history, what its lurker swept and its transcript, and the text that tells them.
//!
//! Contract for the layer above: `summarize` counts as `specs/Counts.antt` says, and `summary_text` writes the lines of
//! `specs/Texts.antt`.
#![tactic(auto)]

mod entries;
mod responses;
mod summary;
mod text;

pub use summary::{Summary, summarize};
pub use text::summary_text;
