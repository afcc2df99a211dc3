//! A client's round, asked step by step what it wants next.
//!
//! Contract for the layer above: after the answers that it was given, a client wants what `specs/Rounds.antt` says of them, by
//! the tables of `client_graph` and the turns of its subroutines. After the same answers there is one want. It knows the
//! evaluator as a `Runner`, and the cache by its calls and replies alone. The text of VCL's `ban` is read by `specs/BanWords.antt`.
#![tactic(auto)]

mod ban_words;
mod client;
mod commands;
mod laws;
mod place;
mod settling;

pub use client::Client;
pub use laws::{
    few_restarts, goes_on_to_its_end, holds_what_its_lookup_opened, looks_up_without_a_fetch,
    nothing_behind_the_end, one_vcl, one_want,
};
pub use place::{Asked, Place};
