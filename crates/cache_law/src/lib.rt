//! What a cache answers: the types of its calls, and the law by which each reply follows from the calls
//! before it.
//!
//! Contract for the layer above: a cache that implements `CacheCore` keeps one history from one beginning,
//! which has the limits and the state before the first entry. Each accepted call adds one entry, which
//! follows the state that the entries before it reach from the beginning, and fits the history's limit.
//! The state, the replies and the limit are defined in `specs/` on plain lists.
#![tactic(auto)]

mod ban;
mod ban_laws;
mod base_laws;
mod bytes;
mod cache;
mod call;
mod laws;
mod matching;
mod object;
mod room_laws;
pub mod rounds;
mod setting;
mod state;
mod vcl;
mod vcl_laws;

pub use ban::{Ban, BanLine, Condition, Issued, TextField, TextOperator, TimeField};
pub use ban_laws::{
    all_bans_are_shown, all_bans_may_be_listed, bans_act_at_once, bans_show_themselves,
    equal_bans_match_alike, given_objects_were_spared, given_objects_were_tested,
    no_request_matters, only_issued_bans_wait,
};
pub use base_laws::{
    alike_is_legal, reopened_is_legal, segments_go_on, states_stay_sound,
    whole_histories_are_not_full,
};
pub use bytes::{entry_bytes, object_size};
pub use cache::{CacheCore, Kept, StepError, Told};
pub use call::{Call, Entry, Options, Query, Reply, RequestView};
pub use laws::{
    answers_are_looked_up, any_answer_fits, closed_once, closing_fits, dropping_fits,
    fields_stay_few, hits_are_fresh, numbers_are_drawn_once, numbers_rise,
    objects_have_own_numbers, open_numbers_are_drawn, waits_are_for_open_fetches,
};
pub use matching::{can_confirm, is_chosen_by, is_fresh_for, is_in_grace_for, matches};
pub use object::{Content, Marker, Object, ObjectView, Response, VaryItem, is_in_time};
pub use room_laws::{objects_are_used_apart, room_is_made, sizes_stay_within};
pub use setting::{Boot, Params};
pub use state::{OpenFetch, OpenRound};
pub use vcl::{Counter, ForcedHealth, Health, LoadedVcl, Vcl, VclLine, VclSource, VclState};
pub use vcl_laws::{rounds_keep_their_vcl, vcl_numbers_rise, vcls_have_own_numbers};
