// What a command is asked for.
use units::Text;

/// A server: where it listens, the file of its VCL, how many workers it has and how many connections it serves (10,000,000 where
/// that isn't said), where its console listens if it has one, and the most bytes that its objects and its history may have.
#[derive(Drop)]
pub struct ServeOptions {
    pub port: u16,
    pub file: Text,
    pub workers: u32,
    pub conns: u32,
    pub cli: Option<u16>,
    pub room: u64,
    pub history: u64,
}

/// A load: the number that its session is made from, and how many steps it has.
#[derive(Clone, Copy, Debug, PartialEq, Eq)]
pub struct LoadOptions {
    pub seed: u32,
    pub steps: u32,
}
