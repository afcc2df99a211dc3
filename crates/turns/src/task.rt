// What the program is to do.
ghost use Rattle.std.specs.Prelude.{◌≡◌, ◌<◌, ◌≤◌, IfSome};

/// The most threads.
pub const MOST: u32 = 64;

/// So many threads take so many turns each, and count to `work` in each.
#[derive(Clone, Copy, Debug)]
pub struct Task {
    pub threads: u32,
    pub turns: u32,
    pub work: u32,
    ghost some: { 0 < threads },
    ghost few: { threads ≤ 64 },
}

impl Task {
    /// None where there are no threads or more than `MOST`.
    pub fn of(threads: u32, turns: u32, work: u32) -> Option<Task>
        ensures { IfSome result (λ t. (t.threads ≡ threads) × (t.turns ≡ turns) × (t.work ≡ work)) }
    {
        if threads == 0 || threads > MOST {
            return None;
        }
        Some(Task {
            threads,
            turns,
            work,
        })
    }
}
