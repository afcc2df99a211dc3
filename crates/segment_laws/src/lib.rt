//! What is told of a run whose history is kept in segments, by what is told of each segment.
//!
//! Contract for the layers above: callers of a cache, as workers, do their part in each segment (`Callers` says what a part is). Where a
//! run has stints that do so, it is one run (`stints_are_one_run`, `specs/Lives.antt`): whoever a caller tells of what it does was told of all
//! of it, in order; what goes on over segments, as a connection, goes on; each place among all entries of the run is that of one call of
//! one caller.
#![tactic(auto)]

mod callers;
mod laws;

pub use callers::Callers;
pub use laws::stints_are_one_run;
