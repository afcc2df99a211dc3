// What is played.
use cache_law::Params;

/// What is played: the session of the source within these limits, or that of a number with so many steps.
#[derive(Clone, Copy, Debug)]
pub enum Job {
    Replay(Params),
    Load { seed: u32, steps: u32 },
}
