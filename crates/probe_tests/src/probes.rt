// Probes of a backend that is in memory.
use backend_probe::{Probed, probe};
use http_heads::Exchange;
use std::alloc::{AllocError, Global};
use std::collections::VecDeque;
use units::Text;
use vcl_attributes::Probe;
use wire::{FailingDialer, Plan, ScriptedClock};

/// The moment at which each probe is over.
const MOMENT: u64 = 7;

fn probe_of(alloc: Global, host: &str, expected: i64) -> Result<Probe, AllocError> {
    Ok(Probe {
        backend: Text::of(alloc, b"a")?,
        host: Text::of(alloc, host.as_bytes())?,
        port: Text::of(alloc, b"80")?,
        url: Text::of(alloc, b"/up")?,
        window: 8,
        threshold: 3,
        initial: 2,
        interval: 5000,
        timeout: 2000,
        expected,
    })
}

// One connection, over which an empty reply of this status comes; none where no status is said.
fn plans(alloc: Global, status: &str) -> Result<VecDeque<Plan>, AllocError> {
    let mut plans = VecDeque::new(alloc);
    if status != "none" {
        let reply = format!(in alloc; "HTTP/1.1 {status} OK\r\nContent-Length: 0\r\n\r\n")?;
        plans.push_back(Plan {
            input: reply.as_bytes().to_vec(alloc)?,
            failing_reads: Vec::new(alloc),
            failing_writes: Vec::new(alloc),
            most: 1000,
        })?;
    }
    Ok(plans)
}

// What the connection took that was handed back last, each end of a line as a bar.
fn took(alloc: Global, dialer: &FailingDialer) -> Result<String, AllocError> {
    let mut shown = String::new(alloc);
    let Some(latest) = dialer.latest() else {
        return Ok(shown);
    };
    let Some(link) = latest.item.as_ref().and_then(|dial| dial.link()) else {
        return Ok(shown);
    };
    let text = String::from_utf8_lossy(alloc, link.took())?;
    for line in text.lines() {
        write!(shown, "{line}|")?;
    }
    Ok(shown)
}

fn push_came(shown: &mut String, probed: &Probed) -> Result<(), AllocError> {
    let (moment, good) = (probed.got.moment, probed.good);
    match &probed.got.exchange {
        Exchange::Reply(head, _) => write!(shown, " status {}", head.status)?,
        Exchange::Fault(number) => write!(shown, " fault {number}")?,
        Exchange::NoMemory => shown.push_str(" no memory")?,
    }
    write!(shown, " at {moment} {}", if good { "good" } else { "bad" })
}

/// What was asked of a host, by a probe that expects a status, over a connection with a reply of another, and what came of it.
pub fn probe_shown(alloc: Global, row: &str) -> Result<String, AllocError> {
    let mut words = row.split(' ');
    let host = words.next().unwrap_or("");
    let expected = words.next().unwrap_or("").parse::<i64>().unwrap_or(0);
    let status = words.next().unwrap_or("none");
    let probing = probe_of(alloc, host, expected)?;
    let mut dialer = FailingDialer::new(alloc, plans(alloc, status)?, Vec::new(alloc));
    let mut clock = ScriptedClock::new(vec![in alloc; MOMENT]?, vec![in alloc; 0]?);
    let probed = probe(alloc, &mut dialer, &mut clock, &probing)?;
    let mut shown = took(alloc, &dialer)?;
    push_came(&mut shown, &probed)?;
    Ok(shown)
}
