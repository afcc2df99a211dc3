//! The bodies of HTTP messages: where they end, and reading them in any pieces.
//!
//! Contract for the layer above: `frame` says by the fields where a body ends. A `BodyReader` takes a
//! body in pieces. Whatever the pieces are, what it takes next is what was left of the body before, by
//! the grammar in `specs/Bodies.antt`, and it refuses the first byte with which no continuation is a body
//! within the limit (`specs/Answers.antt`). So the cut into pieces changes nothing, which `any_cut` states. `unframed` and
//! `with_length` make the fields that say where a body ends (`specs/Framed.antt`), and `framed_as_said` that they do.
#![tactic(auto)]

mod framed;
mod framing;
mod laws;
mod line;
mod place;
mod reader;
mod steps;
mod trailer;
mod whole;

pub use framed::{unframed, with_length};
pub use framing::{BodyError, Framing, Kind, frame, kind_of_reply};
pub use laws::{any_cut, framed_as_said, one_answer, one_body, one_end, one_framing};
pub use reader::BodyReader;
pub use whole::read_body;
