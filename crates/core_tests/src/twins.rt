// A plain and a lazy cache that are asked the same.
ghost use Rattle.std.specs.Prelude.{IfOk};

use ban_lurker::{LurkCore, chores_give_verdicts, judge};
use cache_frame::{Framed, Shelf};
use cache_law::{CacheCore, Kept, Params, Reply, StepError};
use core_rows::{call, core_within, shown, step};
use flat_core::FlatCore;
use lazy_core::LazyCore;
use std::alloc::{AllocError, Global};
use std::mem;

/// What a cache answered: a word and two numbers, where and when, for which token the caller waits, and which fetch was opened.
#[derive(Clone, Copy, Debug)]
pub struct Answer {
    pub word: &'static str,
    pub numbers: (u64, u64),
    pub at: (u64, u64),
    pub awaits: Option<u64>,
    pub opened: Option<(u64, Option<u64>)>,
}

#[derive(Drop)]
pub struct Twins {
    flat: FlatCore,
    lazy: LazyCore,
}

impl Twins {
    pub fn new(alloc: Global, room: u64) -> Result<Twins, AllocError> {
        let params = Params {
            room,
            history: 1 << 40,
            segments: false,
        };
        let flat = core_within(alloc, &params)?;
        let lazy = core_within(alloc, &params)?;
        Ok(Twins { flat, lazy })
    }

    /// What each of them answers to the call, the plain one first.
    pub fn ask(
        &mut self,
        alloc: Global,
        caller: u32,
        moment: u64,
        words: &str,
    ) -> Result<(Answer, Answer), AllocError> {
        let flat = answer_of(alloc, &mut self.flat, caller, moment, words)?;
        let lazy = answer_of(alloc, &mut self.lazy, caller, moment, words)?;
        Ok((flat, lazy))
    }

    /// How many objects the lurker of the lazy one swept, which is asked for so many.
    pub fn lurk(&mut self, alloc: Global, count: u32) -> Result<u32, AllocError> {
        self.lazy.lurk(alloc, count)
    }

    /// Settles what is found of an object of the lazy one that waits, twice, once its lurker has swept so many. Whether anything
    /// changed, each time; none where no object waits.
    pub fn settle(
        &mut self,
        alloc: Global,
        between: u32,
    ) -> Result<Option<(bool, bool)>, AllocError> {
        let Some(chore) = self.lazy.chore(alloc)? else {
            return Ok(None);
        };
        let verdict = judge(alloc, chore)?;
        chores_give_verdicts();
        self.lazy.lurk(alloc, between)?;
        let first = self.lazy.settle(verdict);
        let second = self.lazy.settle(verdict);
        Ok(Some((first, second)))
    }

    /// Reopens both, where nothing is open, and says whether it was so.
    pub fn reopen(&mut self, alloc: Global) -> Result<bool, AllocError> {
        let flat = reopen(alloc, &mut self.flat)?;
        let lazy = reopen(alloc, &mut self.lazy)?;
        Ok(flat && lazy)
    }
}

/// Whether two answers are the same, but for what stands in a list of bans.
pub fn are_alike(one: &Answer, other: &Answer) -> bool {
    one.word == other.word
        && (one.word == "bans" || one.numbers == other.numbers)
        && one.at == other.at
        && one.awaits == other.awaits
}

fn answer_of<C: CacheCore>(
    alloc: Global,
    core: &mut C,
    caller: u32,
    moment: u64,
    words: &str,
) -> Result<Answer, AllocError> {
    let Some(call) = call(alloc, words)? else {
        return Ok(unanswered("no call"));
    };
    let answered = step(alloc, core, caller, moment, call);
    let awaits = core.awaits(caller);
    let told = match &answered {
        Some(Ok(told)) => told,
        Some(Err(error)) => return Ok(unanswered(word_of(error))),
        None => return Ok(unanswered("waits")),
    };
    let (word, first, second) = shown(&told.reply);
    Ok(Answer {
        word,
        numbers: (first, second),
        at: (told.place, told.moment),
        awaits,
        opened: opened_by(&told.reply),
    })
}

fn unanswered(word: &'static str) -> Answer {
    Answer {
        word,
        numbers: (0, 0),
        at: (0, 0),
        awaits: None,
        opened: None,
    }
}

fn word_of(error: &StepError) -> &'static str {
    match error {
        StepError::SegmentFull => "segment full",
        StepError::HistoryFull => "history full",
        StepError::NoMemory => "no memory",
    }
}

// The fetch that the reply opens, with the number of its stale object.
fn opened_by(reply: &Reply) -> Option<(u64, Option<u64>)> {
    match reply {
        Reply::Miss { token, stale } => Some((*token, stale.as_ref().map(|view| view.number))),
        Reply::HitMiss { token } => Some((*token, None)),
        Reply::Grace {
            object,
            token: Some(token),
        } => Some((*token, Some(object.number))),
        _ => None,
    }
}

fn reopen<S: Shelf>(alloc: Global, core: &mut Framed<S>) -> Result<bool, AllocError> {
    if !core.is_idle() {
        return Ok(false);
    }
    let params = Params {
        room: 0,
        history: 0,
        segments: false,
    };
    let told = mem::replace(core, core_within(alloc, &params)?);
    if !told.is_idle() {
        *core = told;
        return Ok(false);
    }
    match told.reopen(alloc) {
        Ok((_history, next)) => {
            *core = next;
            Ok(true)
        }
        Err(Kept { core: kept }) => {
            *core = kept;
            Ok(false)
        }
    }
}
