// A row's connection, served: settings and, behind a bar, what the client sends between quotes. The settings are `history` for the
// most bytes of the history, `most` and `taking` for those of a read and of a write of the client's link, `reads` and `writes` for
// those of its reads and writes that fail, `replies` (`backends.rt`) and `route` for how `vcl_recv` ends (it looks up,
// or passes).
ghost use Rattle.std.specs.Prelude.{◌≡◌, [], false, IfOk};
ghost use Rattle.turnstile.specs.Handles.{known};
ghost use Rattle.shared_cache.specs.Passes.{IsPassOf};
ghost use Rattle.shared_cache.specs.Sharing.{IsKeptWhole, SeesLegal};
ghost use Rattle.round_lead.specs.Seen.{has_open};

use crate::backends::dialer_of;
use crate::scripts::Scripts;
use cache_law::{Boot, CacheCore, Params};
use flat_core::FlatCore;
use http_heads::Exchange;
use round_lead::{Round, Shift, Site};
use row_settings::{number, numbers, setting};
use server::{Event, Keeper, Recorder, serve_connection};
use shared_cache::{CachePass, SharedCache};
use std::alloc::{AllocError, Global};
use std::sync::Wait;
use units::{Sequence, Text, quote, quoted};
use vcl_scripts::ScriptRun;
use wire::{Direction, FailingDialer, FailingLink, Peer, ScriptedClock};
use world::{Kit, OpenGate};

const HISTORY: u64 = 268_435_456;

// The VCL that the cache begins under: the setting `route` is its text (`scripts.rt`).
fn boot(alloc: Global, row: &str) -> Result<Boot, AllocError> {
    let mut backends = Sequence::new(alloc);
    backends.push(Text::of(alloc, b"b")?)?;
    let text = Text::of(alloc, setting(row, "route").as_bytes())?;
    Ok(Boot { text, backends })
}

// A cache whose history has the row's limit.
fn core(alloc: Global, row: &str) -> Result<FlatCore, AllocError>
    ensures { IfOk result (λ core. (⟦<FlatCore as CacheCore>⟧.history core ≡ []) × IsKeptWhole (⟦<FlatCore as CacheCore>⟧.beginning core) []
        × ((⟦<FlatCore as CacheCore>⟧.beginning core).base.rounds ≡ []) × ((⟦<FlatCore as CacheCore>⟧.beginning core).base.entries ≡ 0)) }
{
    let params = Params {
        room: Params::DEFAULT_ROOM,
        history: number(row, "history", HISTORY),
        segments: false,
    };
    FlatCore::make(alloc, &params, boot(alloc, row)?)
}

// The same, shared, and its first pass.
fn cache(alloc: Global, row: &str) -> Result<(SharedCache<FlatCore>, CachePass), AllocError>
    ensures { IfOk result (λ r. IsPassOf r.0 r.1 × (has_open (known r.1) ≡ false) × SeesLegal (known r.1)) }
{
    match SharedCache::open(alloc, core(alloc, row)?, 1, 0) {
        Ok(opened) => Ok(opened),
        Err(_) => Err(AllocError),
    }
}

// What a caller works with: a backend that answers as the row says, and a clock at 0.
fn kit_of(alloc: Global, row: &str) -> Result<Kit<FailingDialer, ScriptedClock>, AllocError> {
    let dialer = dialer_of(alloc, row)?;
    let clock = ScriptedClock::new(vec![in alloc; 0]?, vec![in alloc; 0]?);
    Ok(Kit { dialer, clock })
}

// What it leads its rounds with.
fn shift(
    alloc: Global,
    pass: CachePass,
    row: &str,
) -> Result<Shift<FailingDialer, ScriptedClock, Scripts>, AllocError>
    ensures { IfOk result (λ shift. shift.pass ≡ pass) }
{
    let kit = kit_of(alloc, row)?;
    Ok(Shift {
        pass,
        kit,
        programs: Scripts,
    })
}

fn serve_over<R: Wait>(
    rt: &R,
    alloc: Global,
    shared: &SharedCache<FlatCore>,
    shift: Shift<FailingDialer, ScriptedClock, Scripts>,
    link: FailingLink,
    peer: [u8; 4],
) -> Result<Recorder<FailingLink>, AllocError>
    requires pass { IsPassOf shared.now shift.pass }
    requires idle { has_open (known shift.pass) ≡ false }
    requires legal { SeesLegal (known shift.pass) }
{
    let site = Site {
        rt,
        alloc,
        shared,
        gate: &OpenGate,
    };
    let mut keeper = Recorder::begin(alloc);
    keeper.reserve(2)?;
    let (_shift, keeper) = serve_connection::<
        R,
        FlatCore,
        OpenGate,
        FailingDialer,
        ScriptedClock,
        Scripts,
        ScriptRun,
        FailingLink,
        Recorder<FailingLink>,
    >(site, shift, keeper, link, peer);
    Ok(keeper)
}

// The client.
const PEER: [u8; 4] = [127, 0, 0, 1];

fn recorded<R: Wait>(
    rt: &R,
    alloc: Global,
    row: &str,
    link: FailingLink,
) -> Result<Recorder<FailingLink>, AllocError> {
    let (shared, pass) = cache(alloc, row)?;
    let shift = shift(alloc, pass, row)?;
    serve_over(rt, alloc, &shared, shift, link, PEER)
}

// A link on which these bytes come, with reads of at most so many.
fn link_of(alloc: Global, row: &str, input: &[u8], most: usize) -> Result<FailingLink, AllocError> {
    let taking = setting(row, "taking").parse::<usize>().unwrap_or(4096);
    let reads = Direction::new(numbers(alloc, row, "reads")?, most);
    let writes = Direction::new(numbers(alloc, row, "writes")?, taking);
    let input = input.to_vec(alloc)?;
    Ok(FailingLink::new(alloc, input, reads, writes, Peer::Accepted(PEER)))
}

// Serves a connection on which these bytes come, with reads of at most so many, and tells how it ended, its rounds, and what the
// client got.
fn served_shown<R: Wait>(
    rt: &R,
    alloc: Global,
    row: &str,
    input: &[u8],
    most: usize,
) -> Result<String, AllocError> {
    let link = link_of(alloc, row, input, most)?;
    let recorder = recorded(rt, alloc, row, link)?;
    events_shown(alloc, recorder.events.as_slice())
}

// Adds the bytes between quotes.
fn push_quoted(alloc: Global, out: &mut String, bytes: &[u8]) -> Result<(), AllocError> {
    let text = quote(alloc, bytes)?;
    out.push_str(str::from_utf8(text.bytes()).unwrap_or("no text"))
}

// How the connection ended, its rounds, and what the client got: the rounds are told before the end.
fn events_shown(alloc: Global, events: &[Event<FailingLink>]) -> Result<String, AllocError> {
    let mut rounds = String::new(alloc);
    let mut out = String::new(alloc);
    for event in events {
        match event {
            Event::Led(round) => push_round(alloc, &mut rounds, round)?,
            Event::Over(link, ended) => {
                write!(out, "{ended:?}{rounds}; ")?;
                push_quoted(alloc, &mut out, link.took())?;
            }
        }
    }
    Ok(out)
}

// Its request, the places of its entries, its exchanges, and how many bytes it sent.
fn push_round(alloc: Global, out: &mut String, round: &Round) -> Result<(), AllocError> {
    out.push_str("; ")?;
    push_quoted(alloc, out, round.request.head.url.bytes())?;
    push_body(alloc, out, round.request.body.bytes())?;
    push_numbers(out, round.numbers.as_slice())?;
    for got in &round.exchanges {
        push_exchange(out, &got.exchange)?;
    }
    write!(out, " sent {}", round.sent.len())
}

fn push_body(alloc: Global, out: &mut String, body: &[u8]) -> Result<(), AllocError> {
    if body.is_empty() {
        return Ok(());
    }
    out.push_str(" with ")?;
    push_quoted(alloc, out, body)
}

fn push_numbers(out: &mut String, numbers: &[u64]) -> Result<(), AllocError> {
    out.push_str(" at")?;
    for number in numbers {
        write!(out, " {number}")?;
    }
    Ok(())
}

fn push_exchange(out: &mut String, exchange: &Exchange) -> Result<(), AllocError> {
    match exchange {
        Exchange::Reply(head, _) => write!(out, " reply {}", head.status),
        Exchange::Fault(number) => write!(out, " fault {number}"),
        Exchange::NoMemory => out.push_str(" no memory"),
    }
}

// What is said of the fronts of the input from each length on, or with reads of each size on, where another thing is said than
// before.
fn stretches_shown<R: Wait>(
    rt: &R,
    alloc: Global,
    row: &str,
    input: &[u8],
    cuts: bool,
) -> Result<String, AllocError> {
    let mut out = String::new(alloc);
    let mut latest = String::new(alloc);
    let first = if cuts { 0 } else { 1 };
    for count in first..=input.len() {
        let (front, most) = if cuts {
            (count, 4096)
        } else {
            (input.len(), count)
        };
        let front = input.get(..front).unwrap_or(input);
        let said = served_shown(rt, alloc, row, front, most)?;
        if said.as_str() != latest.as_str() {
            write!(out, "from {count} {said} ")?;
            latest = said;
        }
    }
    write!(out, "to {}", input.len())?;
    Ok(out)
}

/// What is said of the row's connection. Behind `cuts` it is served with each front of its input, behind `pieces` with reads of
/// each size.
pub fn connection_shown<R: Wait>(
    rt: &R,
    alloc: Global,
    word: &str,
    row: &str,
) -> Result<String, AllocError> {
    let (row, input) = row.split_once("| ").unwrap_or((row, ""));
    let Some((input, _)) = quoted(alloc, input.as_bytes(), 0)? else {
        return format!(in alloc; "no input");
    };
    if word == "serve" {
        let most = setting(row, "most").parse::<usize>().unwrap_or(4096);
        served_shown(rt, alloc, row, input.bytes(), most)
    } else {
        stretches_shown(rt, alloc, row, input.bytes(), word == "cuts")
    }
}
