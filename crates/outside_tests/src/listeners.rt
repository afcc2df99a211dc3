// Listeners in memory.
ghost use Rattle.std.specs.Prelude.{◌≡◌, IfOk};

use row_settings::{number, numbers};
use std::alloc::{AllocError, Global};
use std::collections::VecDeque;
use wire::Plan;
use world::{Coming, FailingListener};

fn new_coming(alloc: Global, number: u8) -> Result<Coming, AllocError> {
    let plan = Plan {
        input: Vec::new(alloc),
        failing_reads: Vec::new(alloc),
        failing_writes: Vec::new(alloc),
        most: 1,
    };
    Coming::new(alloc, plan, [10, 0, 0, number])
}

fn arrivals(alloc: Global, coming: u64) -> Result<VecDeque<Coming>, AllocError> {
    let mut all = VecDeque::new(alloc);
    for number in 0..=u8::MAX {
        if u64::from(number) < coming {
            all.push_back(new_coming(alloc, number)?)?;
        }
    }
    Ok(all)
}

/// A listener to which so many connections come as the setting `coming` says, numbered by their addresses from 0 on, whose calls with
/// the numbers of `failing` fail, and of which as many others as `quiet` says find nobody yet.
pub fn listener_of(alloc: Global, row: &str) -> Result<FailingListener, AllocError>
    ensures unused { IfOk result (λ listener. listener.given ≡ 0) }
{
    let coming = arrivals(alloc, number(row, "coming", 0))?;
    let failing = numbers(alloc, row, "failing")?;
    let quiet = number(row, "quiet", 0);
    Ok(FailingListener::new(alloc, coming, failing, quiet))
}
