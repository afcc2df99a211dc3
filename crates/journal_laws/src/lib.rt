//! What the texts of journals determine, beyond one line.
//!
//! Contract for the layer above: a text that is refused is so for one fault at one column (`one_refusal`), and a text of
//! lines is that of one history that the law allows (`one_lawful_history`).
#![tactic(auto)]

mod laws;

pub use laws::{one_lawful_history, one_refusal};
