// Threads that take turns.
ghost use Rattle.std.specs.Prelude.{◌≡◌, ◌+◌, ◌-◌, ◌^◌, ◌<◌, ◌≤◌};
ghost use Rattle.std.specs.Thread.{IsSync};
ghost use Rattle.turnstile.specs.Handles.{known, number_of, IsPassOf};

use crate::task::Task;
use crate::visits::Visits;
use std::alloc::Global;
use std::hint::spin_loop;
use std::sync::Wait;
use std::thread::{Threads, join};
use turnstile::{Pass, Turnstile};

type Lock = Turnstile<Visits>;

type Ticket = Pass<u32, ()>;

// One turn, in which the caller's number is written down, if memory allows.
fn visit<R: Wait>(rt: &R, lock: &Lock, pass: &mut Ticket, work: u32)
    requires { IsPassOf lock.now pass.old }
    ensures { IsPassOf lock.now pass.new × ((known pass.new).number ≡ (known pass.old).number) × ((known pass.new).upto ≡ (known pass.old).upto) }
{
    let number = pass.number();
    let mut held = lock.turn(rt, pass);
    let _ = held.value.callers.push(number);
    count_to(work);
    lock.give_back(pass, held);
}

// Work that takes time and touches nothing.
fn count_to(work: u32) {
    for _ in 0..work {
        spin_loop();
    }
}

// So many turns, one after another.
fn visit_often<R: Wait>(rt: &R, lock: &Lock, mut pass: Ticket, task: Task) -> Ticket
    requires { IsPassOf lock.now pass }
    ensures { IsPassOf lock.now result }
{
    'turns: for _ in 0..task.turns {
        visit(rt, lock, &mut pass, task.work);
    }
    pass
}

// So many threads take their turns side by side, each under a number of its own from the pass's upwards.
fn visit_together<R: Threads + Wait + Sync>(
    rt: &R,
    lock: &Lock,
    mut pass: Ticket,
    threads: u32,
    task: Task,
) -> Ticket
    requires pass { IsPassOf lock.now pass }
    requires some { 0 < threads }
    requires room { (known pass).number + threads ≤ (known pass).upto }
    requires narrow { (known pass).upto ≤ 2 ^ 32 }
    ensures { IsPassOf lock.now result }
{
    if threads == 1 {
        return visit_often(rt, lock, pass, task);
    }
    let rest = threads / 2;
    let kept = threads - rest;
    let first_of_rest = pass.number() + kept;
    let other = lock.split(&mut pass, first_of_rest);
    let (mut pass, other) = join(
        rt,
        move || -> Ticket
            requires { IsSync R.row × IsPassOf lock.now pass × (0 < kept) × ((known pass).number + kept ≤ (known pass).upto) × ((known pass).upto ≤ 2 ^ 32) }
            ensures { IsPassOf lock.entry.now result }
        { visit_together(rt, lock, pass, kept, task) },
        move || -> Ticket
            requires { IsSync R.row × IsPassOf lock.now other × (0 < rest) × ((known other).number + rest ≤ (known other).upto) × ((known other).upto ≤ 2 ^ 32) }
            ensures { IsPassOf lock.entry.now result }
        { visit_together(rt, lock, other, rest, task) },
    );
    lock.join(&mut pass, other);
    pass
}

/// How many numbers stand in the list that the threads leave. None for want of memory for the lock.
pub fn count_visits<R: Threads + Wait + Sync>(rt: &R, alloc: Global, task: Task) -> Option<u64> {
    let Ok((lock, pass)) = Turnstile::new(alloc, Visits::new(alloc), 0) else {
        return None;
    };
    let pass = visit_together(rt, &lock, pass, task.threads, task);
    let (visits, _pass) = lock.close(rt, pass);
    Some(visits.callers.len() as u64)
}
