// How often each call and each answer came.
use std::alloc::{AllocError, Global};

/// Each call.
const CALLS: [&str; 16] = [
    "begin",
    "draw",
    "lookup",
    "insert",
    "drop",
    "purge",
    "xkey",
    "ban",
    "ban_list",
    "pick",
    "set_health",
    "load",
    "switch",
    "discard",
    "vcl_list",
    "end",
];

/// Each answer that is to come, beside want of memory.
const ANSWERS: [&str; 33] = [
    "began",
    "no round",
    "drawn",
    "hit",
    "hit miss",
    "hit pass",
    "grace",
    "wait",
    "miss",
    "picked none",
    "picked",
    "stored",
    "not open",
    "stale gone",
    "not in time",
    "no room",
    "banned",
    "bans",
    "purged",
    "health set",
    "loaded",
    "name taken",
    "switched",
    "no vcl",
    "discarded",
    "is active",
    "vcls",
    "dropped",
    "ended",
    "swept",
    "settled",
    "not settled",
    "reopened",
];

/// A call or an answer, and how often it came.
#[derive(Clone, Copy, Debug)]
struct Counted {
    word: &'static str,
    count: u64,
}

#[derive(Drop)]
pub struct Tally {
    counts: Vec<Counted>,
}

impl Tally {
    pub fn new(alloc: Global) -> Result<Tally, AllocError> {
        let mut counts = Vec::new(alloc);
        for word in CALLS {
            counts.push(Counted { word, count: 0 })?;
        }
        for word in ANSWERS {
            counts.push(Counted { word, count: 0 })?;
        }
        Ok(Tally { counts })
    }

    /// The call or the answer came once more.
    pub fn add(&mut self, word: &str) {
        let found = self.counts.iter_mut().find(|counted| counted.word == word);
        if let Some(counted) = found {
            counted.count = counted.count.saturating_add(1);
        }
    }

    /// Whether each came so many times, and which didn't, with how often.
    pub fn said(&self, alloc: Global, least: u64) -> Result<String, AllocError> {
        let mut said = format!(in alloc; "alike")?;
        for counted in self.counts.iter() {
            if counted.count < least {
                add(alloc, &mut said, counted)?;
            }
        }
        Ok(said)
    }

    /// How often each came.
    pub fn counts(&self, alloc: Global) -> Result<String, AllocError> {
        let mut said = String::new(alloc);
        for counted in self.counts.iter() {
            add(alloc, &mut said, counted)?;
        }
        Ok(said)
    }
}

fn add(alloc: Global, said: &mut String, counted: &Counted) -> Result<(), AllocError> {
    let (word, count) = (counted.word, counted.count);
    let joint = if said.is_empty() { "" } else { ", " };
    said.push_str(format!(in alloc; "{joint}{word} {count}")?.as_str())
}
