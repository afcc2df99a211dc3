//! The program `varn`: what it does stands in `varn_command`.
#![tactic(auto)]

use std::process::ExitCode;
use varn_command::{Start, perform, refuse_start};

fn main(rt: HostRuntime) -> ExitCode {
    match Start::read(&rt) {
        Ok(start) => perform(&rt, &rt, start),
        Err(error) => refuse_start(&rt, error),
    }
}
