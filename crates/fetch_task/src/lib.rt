//! A fetch, asked step by step what it wants next.
//!
//! Contract for the layer above: after the answers that it was given, a fetch wants what `specs/Fetches.antt` says of them, by
//! the tables of `fetch_graph` and the words that its subroutines end with. After the same answers there is one want, but for
//! the word by which a director of kind random chooses. It knows the evaluator as a `Runner`, and the cache and the backends
//! by their answers alone.
#![tactic(auto)]

mod fetch;
mod laws;
mod settling;

pub use fetch::Fetch;
pub use laws::{closes_what_its_lookup_opened, few_retries, for_its_order, one_want, one_word};
