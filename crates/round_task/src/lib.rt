//! A round of a client: the client and the fetches that it asks for, as one task that is asked step by step what it wants next.
//!
//! Contract for the layer above: a round wants its Begin first, and after the answers that it was given what `specs/Rounds.antt`
//! says of them. Its wants are calls of the cache, exchanges with backends, that its response is sent, and in the end nothing
//! more. Which of them are the client's and which a fetch's is no matter of the layer above.
#![tactic(auto)]

mod laws;
mod leading;
mod place;
mod round;
mod want;

pub use laws::{
    begun_once, fetches_behind_its_response, from_begin_to_end, goes_on_to_its_end, led_alike,
    looks_up_again, nothing_behind_the_end, one_response, one_vcl, one_want,
};
pub use place::Place;
pub use round::Round;
pub use want::Want;
