//! A cache with a lurker: beside its calls, it goes over stored objects and tests them on the bans that wait for them.
//!
//! Contract for the layer above: a `LurkCore` is a `CacheCore` whose lurker leaves the history as it is. What it hands out to be
//! tested is a `Chore`; `judge` tests it with no cache at hand, and gives a `Verdict`, which is one of the cache's history
//! (`specs/Verdicts.antt`) and stays one while the history grows.
#![tactic(auto)]

mod ban_run;
mod chore;
mod judging;
mod laws;
mod lurking;

pub use ban_run::BanRun;
pub use chore::{Chore, Verdict};
pub use judging::judge;
pub use laws::{chores_give_verdicts, verdicts_stay};
pub use lurking::LurkCore;
