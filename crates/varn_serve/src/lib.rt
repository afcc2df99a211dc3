//! A server's run: from its order to its status.
//!
//! Contract for the layer above: `serve_with_std` reads and checks the VCL of the order, listens, and has workers serve connections over one
//! lazy cache. Its history is legal, and each response that was sent is one of it, as `specs/Run.antt` says; each status has its
//! cause (`specs/Endings.antt`).
#![tactic(auto)]

mod console;
mod ending;
mod functions;
mod programs;
mod rounds;
mod running;

pub use ending::{Served, Status, VclNote};
pub use functions::serve_with_std;
