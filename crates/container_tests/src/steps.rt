// Steps on a container, with `; ` between them.
use std::alloc::{AllocError, Global};
use std::time::CpuClock;

/// What steps are done on.
pub trait Container: Drop {
    /// Does the step, and says what comes of it.
    fn say_step(&mut self, alloc: Global, step: &str, out: &mut String) -> Result<(), AllocError>;
}

/// What is said of the steps. The step `clock`, which is of no container, says the processor time that the program has used
/// by now, in nanoseconds: no row can want that, but a script can take the time of the steps between two.
pub fn said<C: Container>(
    rt: &HostRuntime,
    mut container: C,
    steps: &str,
) -> Result<String, AllocError> {
    let mut out = String::new(rt.alloc());
    for step in steps.split("; ") {
        if !out.is_empty() {
            out.push_str("; ")?;
        }
        match step {
            "clock" => say_clock(rt, &mut out)?,
            _ => container.say_step(rt.alloc(), step, &mut out)?,
        }
    }
    Ok(out)
}

fn say_clock(rt: &HostRuntime, out: &mut String) -> Result<(), AllocError> {
    match rt.thread_cpu_time() {
        Ok(used) => write!(out, "{}", used.as_nanos()),
        Err(_) => out.push_str("no clock"),
    }
}
