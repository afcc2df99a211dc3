//! The checker of VCL: whether a syntax tree is sound, and its first fault where it isn't.
//!
//! Contract for the layer above: `check` gives a `Program` of a tree that is sound, and otherwise its first fault.
//! `specs/Texts.antt` says when a text is sound (`IsSound`) and by what it is refused (`IsRefused`), over names and
//! places; `specs/Faults.antt` what a part has wrong by itself; `specs/Sentences.antt` what a sound text keeps,
//! sentence by sentence. The rules are tables in `specs/`, on what is seen of two parts that are tied.
#![tactic(auto)]

mod acls;
mod attributes;
mod declarations;
mod expressions;
mod faults;
mod form;
mod known;
mod laws;
mod mentions;
mod patterns;
mod program;
mod reaching;
mod rules;
mod seen;
mod statements;
mod told;
mod views;

pub use acls::networks;
pub use declarations::{NameSort, symbol_table};
pub use form::{Form, Use};
pub use laws::{probes_fit, sound_keeps};
pub use mentions::{Mention, MentionKind, is_init, says};
pub use program::{Program, check};
pub use seen::{Argument, Arguments, Literal, Meaning, Seen, Sort, Told};
pub use vcl_attributes::{Limits, Probe};
pub use vcl_probes::probes_in_range;
pub use views::{weight_of_decimal, weight_of_integer};
