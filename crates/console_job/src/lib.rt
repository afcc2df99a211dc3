//! A console beside the workers of a run: operators who come in, one behind another, each served over the workers' cache; and the ban
//! lurker while none is there.
//!
//! Contract for the layer above: `ConsoleJob` is a job beside workers (`crew`). What it leaves is a talk for each operator who was
//! accepted, in order, as `console_link` tells it, and its link, which was new then and is ended (`specs/Operating.antt`). The lurker makes no
//! call. The calls of all lines, and no others, are those of the job.
#![tactic(auto)]

mod job;
mod opening;
mod serving;
mod sweeping;

pub use job::{ConsoleBook, ConsoleJob};
pub use opening::{BookOf, ConsoleOf, OpenError, close_console, open_console};
