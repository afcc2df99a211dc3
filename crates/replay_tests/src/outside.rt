// Sources and sinks that fail as a word says: `read=N` at the read of this number, `write=N` at the write of this number,
// where a write takes at most so many bytes behind `/`.
use std::alloc::{AllocError, Global};
use wire::{FailingSink, FailingSource};

pub fn source_of(alloc: Global, plan: &str, session: &[u8]) -> Result<FailingSource, AllocError> {
    let fails = numbers_of(alloc, plan.strip_prefix("read="))?;
    let session = session.to_vec(alloc)?;
    Ok(FailingSource::new(session, fails))
}

pub fn sink_of(alloc: Global, plan: &str) -> Result<FailingSink, AllocError> {
    let (plan, most) = plan.split_once('/').unwrap_or((plan, "1000000"));
    let fails = numbers_of(alloc, plan.strip_prefix("write="))?;
    let most = most.parse::<usize>().unwrap_or(0);
    Ok(FailingSink::new(alloc, fails, most))
}

// The number of the call that fails, if one does.
fn numbers_of(alloc: Global, word: Option<&str>) -> Result<Vec<u64>, AllocError> {
    let mut fails = Vec::new(alloc);
    if let Some(number) = word.and_then(|word| word.parse::<u64>().ok()) {
        fails.push(number)?;
    }
    Ok(fails)
}
