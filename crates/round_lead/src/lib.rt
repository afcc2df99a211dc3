//! A round of a client, led over a shared cache from its Begin to its End.
//!
//! Contract for the layer above: `lead` makes the calls that the round asks for by the caller's pass, its exchanges with backends
//! over dialed links, and writes its response over the client's link. What it keeps of the round is a response over the history
//! that the pass has then seen, whole or cut short (`specs/Responses.antt`), and the caller's round is closed again. Each
//! exchange has a talk of its own, in order; its moment, and the words of directors of kind random, are what the clock told.
#![tactic(auto)]

mod answering;
mod calling;
mod cut;
mod exchanging;
mod following;
mod keeping;
mod laws;
mod leading;
mod sending;
mod site;

pub use keeping::Round;
pub use laws::made_under_its_vcl;
pub use leading::lead;
pub use site::{Shift, Site};
