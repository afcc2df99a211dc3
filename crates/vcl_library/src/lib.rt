//! The programs of VCL texts, made once and shared, and where their backends are.
//!
//! Contract for the layer above: rounds are led by a `Library` (the trait `Programs` of `vcl_runs`). The `program` that it gives is one of the
//! text that was asked for, with the functions of the modules `std` and `cookie` (`specs/Programs.antt`), whatever it keeps; it keeps the two that were asked
//! for last. What such a program means is `specs/Meaning.antt`, and all programs of a text mean the same. `backend_of` gives the place of a
//! program's backend (`specs/Backends.antt`), `waiting_at` how long it is waited for (`specs/Waiting.antt`).
#![tactic(auto)]

mod answers;
mod backends;
mod functions;
mod library;
mod waiting;

pub use answers::std_answer;
pub use backends::backend_of;
pub use functions::std_vmods;
pub use library::{Kept, Library};
pub use waiting::waiting_at;
