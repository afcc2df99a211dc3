//! Clients over TCP, whose connections one loop owns while no worker has them.
//!
//! Contract for the layer above: `PortListener` and `PortLink` are a listener and its links, and keep the clauses of these traits. A
//! link comes once a request is there as a whole, so that no read of it waits for a client. Nothing is told of what goes over it,
//! since no clause can name that.
#![tactic(auto)]

mod client;
mod client_pace;
mod holding;
mod noting;
mod outside;
mod places;
mod port_link;
mod port_listener;
mod remedies;
mod shared;
mod stop_sign;
mod telling;
mod turning;
mod waiting;

pub use outside::Outside;
pub use port_link::PortLink;
pub use port_listener::PortListener;
pub use shared::Edge;
pub use telling::tell;
pub use turning::begin_loop;
