// What is kept of an object beside it.
use ban_list::Stand;

/// The place in the history of the entry that used the object last, and where it stands among the bans.
#[derive(Clone, Copy)]
pub struct Placement {
    pub used: u64,
    pub stand: Stand,
}
