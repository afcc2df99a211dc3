// The probes and the limits of a text's backends.
use crate::refusals::program_of;
use std::alloc::{AllocError, Global};
use vcl_check::{Limits, Probe, Program};
use vmod_host::VmodTable;

/// The probes that a text's backends have, or what they are limited to.
pub fn servers_shown(
    alloc: Global,
    vmods: &VmodTable,
    word: &str,
    row: &str,
) -> Result<String, AllocError> {
    let mut shown = String::new(alloc);
    match program_of(alloc, vmods, row) {
        Ok(program) => push_servers(&mut shown, word, &program)?,
        Err(_) => shown.push_str("refused")?,
    }
    Ok(shown)
}

fn push_servers(shown: &mut String, word: &str, program: &Program) -> Result<(), AllocError> {
    if word == "probes" {
        for probe in program.probes() {
            push_probe(shown, probe)?;
        }
    } else {
        for limits in program.limits() {
            push_limits(shown, limits)?;
        }
    }
    Ok(())
}

fn push_probe(shown: &mut String, probe: &Probe) -> Result<(), AllocError> {
    write!(
        shown,
        "({:?} {:?} {:?} {:?}",
        probe.backend, probe.host, probe.port, probe.url
    )?;
    write!(
        shown,
        " {} {} {} {} {} {})",
        probe.window, probe.threshold, probe.initial, probe.interval, probe.timeout, probe.expected
    )
}

fn push_limits(shown: &mut String, limits: &Limits) -> Result<(), AllocError> {
    write!(
        shown,
        "({:?} {} {} {} {:?})",
        limits.backend,
        limits.connect_timeout,
        limits.first_byte_timeout,
        limits.between_bytes_timeout,
        limits.max_connections
    )
}
