//! The program that bench/turns.sh runs: so many threads take so many turns each of one lock, and each writes its number
//! into the list that the lock keeps. It says how many numbers stand there at the end. The cache has no part in it.
#![tactic(auto)]

mod crowd;
mod task;
mod visits;

use crowd::count_visits;
use std::env;
use std::process::ExitCode;
use task::Task;

const USAGE: &str = "usage: turns THREADS TURNS WORK";

// The task that the words of the command line name.
fn read_task(rt: &HostRuntime) -> Option<Task> {
    let Ok(line) = env::args(rt) else {
        return None;
    };
    let mut numbers = [0u32; 3];
    let mut count = 0;
    for word in line.skip(1) {
        if count >= 3 {
            return None;
        }
        let Ok(number) = word.parse::<u32>() else {
            return None;
        };
        numbers[count] = number;
        count += 1;
    }
    if count < 3 {
        return None;
    }
    Task::of(numbers[0], numbers[1], numbers[2])
}

fn main(rt: HostRuntime) -> ExitCode {
    let Some(task) = read_task(&rt) else {
        let _ = eprintln!(rt; "{USAGE}");
        return ExitCode::from(2);
    };
    let Some(count) = count_visits(&rt, rt.alloc(), task) else {
        let _ = eprintln!(rt; "out of memory");
        return ExitCode::from(6);
    };
    if println!(rt; "{count}").is_err() {
        return ExitCode::from(5);
    }
    ExitCode::from(0)
}
