// What is known of a member.

/// A member of a cache: the handle under which its owner has it, the bytes that it takes, and the moment from which on it
/// is of no use, in milliseconds since 1970.
#[derive(Clone, Copy)]
pub struct Member {
    pub handle: u64,
    pub size: u64,
    pub end: i128,
}
