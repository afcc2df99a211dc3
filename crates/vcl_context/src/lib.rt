//! What a subroutine of VCL works on: the values of all variables, the texts of the key, the body that was made, and how
//! many statements were run.
//!
//! Contract for the layer above: `specs/Reading.antt` says what each variable reads as, and `specs/Setting.antt` what a
//! context becomes where a variable is set, or that the subroutine ends as `fail` there; the calls here do just that. The
//! variables are those of `vcl_language`, with the same types, and are set where its table lets them be set. The reasons that go
//! with statuses are in `specs/Reasons.antt`. `Turn` and its parts are types alone: what a run wants, is given and ends with.
#![tactic(auto)]

mod carried;
mod context;
mod fields;
mod initial;
mod names;
mod reading;
mod reasons;
mod setting;
mod turn;
mod variable;

pub use context::{CachedObject, ClientRequest, Context, FetchRequest, FetchResponse, Peer};
pub use initial::{body_or_empty, empty_context, peer_at, status_or_503, uncount};
pub use names::{all_variables, field_of, variable_of};
pub use reasons::reason_or_unknown;
pub use setting::Setting;
pub use turn::{Answer, Command, Return, Turn};
pub use variable::{
    FetchRequestVariable, FetchResponseVariable, Message, ObjectVariable, RequestVariable,
    ResponseVariable, Variable,
};
