//! The lazy cache: it tests its objects on bans later than the law does, and is answered as if each ban acted at once.
//!
//! Contract for the layer above: what it keeps stands for the law's bans and objects (`specs/Stands.antt`). The laws say
//! that each call, answered over what is kept, has the law's reply and leaves what stands for the law's next state.
#![tactic(auto)]

mod laws;

pub use laws::{
    calls_are_the_laws, chores_are_of_the_history, cuts_are_unseen, histories_go_on,
    nothing_stands_for_nothing, other_entries_go_on, reopened_ones_go_on, sweeps_are_unseen,
    time_changes_nothing, verdicts_are_unseen,
};
