//! Lookups over the store of the lazy cache: what one sees, and what it leaves.
//!
//! Contract for the layer above: `look` sees what the scan of `lazy_law` finds, and notes what becomes of the objects that
//! it came to, which changes nothing. `take` does that, and uses what was found.
#![tactic(auto)]

mod looking;
mod marks;
mod sight;
mod taking;

pub use looking::look;
pub use marks::Marks;
pub use taking::take;
