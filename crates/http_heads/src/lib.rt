//! The heads of HTTP messages, read and printed, and the fields of a message.
//!
//! Contract for the layer above: `read_request` and `read_response` answer a message exactly where the
//! bytes begin with a head, by the grammar in `specs/Heads.antt`; what `print_request` and
//! `print_response` write is read again. `Fields` is seen as the ordered list of its names and values,
//! and its calls are functions on that list. `is_listed` and `listed` tell the elements of the lists in fields
//! (`specs/Lists.antt`), and `split_list` those of a text; `with_field` and its kin give the fields with one more, and have no limit.
#![tactic(auto)]

mod added;
mod exchange;
mod fields;
mod laws;
mod limits;
mod lines;
mod lists;
mod message;
mod parts;
mod print;
mod read;
mod refusal;

pub use added::{with_field, with_number, with_only_field};
pub use exchange::{Backend, BackendRequest, Exchange, Got};
pub use fields::{Field, FieldError, Fields};
pub use laws::{one_head, sent_on};
pub use limits::{MAX_HEAD, MAX_NAME, MAX_SET_FIELDS};
pub use lists::{is_listed, listed};
pub use message::{HeadError, RequestHead, ResponseHead};
pub use parts::{Separators, split_list};
pub use print::{print_request, print_response};
pub use read::{read_request, read_response};
pub use refusal::bad_request;
