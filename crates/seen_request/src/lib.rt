//! What VCL sees of a request that came.
//!
//! Contract for the layer above: `see` gives `seen` of `specs/Seen.antt`, without the fields of the client's connection and with
//! an absolute target of http or https split (`specs/Targets.antt`). `is_of_one_site` tells the requests that can be read
//! (`specs/Sites.antt`).
#![tactic(auto)]

mod seeing;
mod sites;
mod targets;

pub use seeing::see;
pub use sites::is_of_one_site;
