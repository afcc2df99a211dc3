//! The program's outside: where bytes come from and where they go.
//!
//! Contract for the layer above: a source and a sink each have a count of faults that never falls. An
//! error, and a write that takes nothing, come only where the count rose in that call. Where a source
//! tells what it has left, a read gives its front; where a sink tells what it holds, a write adds a
//! front of the piece, and an error adds nothing. `write_all` and `read_all` keep that over many calls.
#![tactic(auto)]

mod calls;
mod clock;
mod copying;
mod dial_limits;
mod failing;
mod failing_dialer;
mod failing_link;
mod giving;
mod kept;
mod link;
mod peer;
mod scripted_clock;
mod sending;
mod traits;
mod unfailing;
mod unfailing_dialer;
mod unfailing_link;

pub use calls::Calls;
pub use clock::Clock;
pub use copying::{ReadError, WriteFault, read_all, write_all};
pub use dial_limits::DialLimits;
pub use failing::{FailingSink, FailingSource};
pub use failing_dialer::{Dial, DialedLink, FailingDialer, Plan};
pub use failing_link::{Direction, FailingLink};
pub use kept::{Kept, keep, place};
pub use link::{DialError, Dialer, Link, Readiness};
pub use peer::{Peer, Talk};
pub use scripted_clock::ScriptedClock;
pub use sending::{write_link, write_most};
pub use traits::{Failed, Sink, Source};
pub use unfailing::{UnfailingSink, UnfailingSource};
pub use unfailing_dialer::UnfailingDialer;
pub use unfailing_link::UnfailingLink;
