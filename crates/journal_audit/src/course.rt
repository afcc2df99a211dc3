// How far an audit has come.
ghost use Rattle.std.specs.Prelude.{◌+◌, ◌≤◌, ◌^◌};

use crate::phase::Phase;

/// The lines so far may be taken.
#[derive(Drop)]
pub(crate) struct Course<F> {
    pub phase: Phase<F>,
    /// How many bytes a journal may still have.
    pub room: usize,
    pub lines: u32,
    pub entries: u64,
    /// How many segments have ended that aren't the last.
    pub cuts: u64,
    ghost few: { lines + room ≤ 2 ^ 30 },
    ghost entries_few: { entries ≤ lines },
    ghost cuts_few: { cuts ≤ lines },
}
