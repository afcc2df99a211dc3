//! Workers whose rounds are led by programs of the texts that their Begins were told.
//!
//! Contract for the layer above: `Steering` is a host over a shared cache, whose connections are served by `serve_connection`. A shift has
//! programs of its own, from a stock. What is told of a connection (`specs/Telling.antt`) is what `serve_connection` tells, over the
//! whole history.
#![tactic(auto)]

mod host;
mod service;
mod stock;

pub use service::Steering;
pub use stock::Stock;
