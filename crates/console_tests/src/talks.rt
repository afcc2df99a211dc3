// A row's talk: settings and, behind a bar, what the operator sends between quotes and, behind that, the text of the shelf's one file,
// `site.vcl`, between quotes, if there is one. The settings are `history` for the most bytes of the history, `most` and `taking` for
// those of a read and of a write of the link, `reads`, `writes` and `failing` for those of the link's reads and writes and of the
// shelf's reads that fail, `times` for what the clock tells, and `long` for so many bytes `a` and an LF before what is sent.
ghost use Rattle.std.specs.Prelude.{◌≡◌, ◌<◌, [], IfOk};
ghost use Rattle.std.specs.Vec.{vec_len};
ghost use Rattle.shared_cache.specs.Passes.{IsPassOf};
ghost use Rattle.shared_cache.specs.Sharing.{IsKeptWhole};

use cache_law::{Boot, CacheCore, Params};
use console_link::{ConsoleLine, ConsoleTalk, Desk, Site, serve_console};
use flat_core::FlatCore;
use message_reader::Intake;
use row_settings::{number, numbers, setting};
use shared_cache::{CachePass, SharedCache};
use std::alloc::{AllocError, Global};
use std::sync::Wait;
use units::{Sequence, Text, quote, quoted};
use vmod_host::VmodTable;
use wire::{Direction, FailingLink, Peer, ScriptedClock};
use world::{FailingShelf, File};

const HISTORY: u64 = 268_435_456;

// The VCL that the cache begins under, with one backend.
fn boot(alloc: Global) -> Result<Boot, AllocError> {
    let mut backends = Sequence::new(alloc);
    backends.push(Text::of(alloc, b"default")?)?;
    let text = Text::of(
        alloc,
        b"vcl 4.1; backend default { .host = \"127.0.0.1\"; }",
    )?;
    Ok(Boot { text, backends })
}

// A cache whose history has the row's limit.
fn core(alloc: Global, row: &str) -> Result<FlatCore, AllocError>
    ensures { IfOk result (λ core. (⟦<FlatCore as CacheCore>⟧.history core ≡ []) × IsKeptWhole (⟦<FlatCore as CacheCore>⟧.beginning core) []
        × ((⟦<FlatCore as CacheCore>⟧.beginning core).base.entries ≡ 0)) }
{
    let params = Params {
        room: Params::DEFAULT_ROOM,
        history: number(row, "history", HISTORY),
        segments: false,
    };
    FlatCore::make(alloc, &params, boot(alloc)?)
}

// The same, shared, and its first pass.
fn cache(alloc: Global, row: &str) -> Result<(SharedCache<FlatCore>, CachePass), AllocError>
    ensures { IfOk result (λ r. IsPassOf r.0 r.1) }
{
    match SharedCache::open(alloc, core(alloc, row)?, 1, 0) {
        Ok(opened) => Ok(opened),
        Err(_) => Err(AllocError),
    }
}

// A shelf with the file, if there is one.
fn shelf_of(alloc: Global, row: &str, file: Option<Text>) -> Result<FailingShelf, AllocError> {
    let mut files = Sequence::new(alloc);
    if let Some(text) = file {
        let name = Text::of(alloc, b"site.vcl")?;
        files.push(File { name, text })?;
    }
    Ok(FailingShelf::new(files, numbers(alloc, row, "failing")?))
}

// The clock's readings, of which there is one at least.
fn readings(alloc: Global, row: &str) -> Result<Vec<u64>, AllocError>
    ensures { IfOk result (λ readings. 0 < vec_len readings) }
{
    let mut readings = numbers(alloc, row, "times")?;
    if readings.is_empty() {
        readings.push(0)?;
    }
    Ok(readings)
}

fn desk_of(
    alloc: Global,
    row: &str,
    pass: CachePass,
    file: Option<Text>,
) -> Result<Desk<FailingShelf, ScriptedClock>, AllocError>
    ensures { IfOk result (λ desk. desk.pass ≡ pass) }
{
    let shelf = shelf_of(alloc, row, file)?;
    let clock = ScriptedClock::new(readings(alloc, row)?, vec![in alloc; 0]?);
    Ok(Desk { pass, shelf, clock })
}

// The operator.
const PEER: [u8; 4] = [127, 0, 0, 1];

// What is sent, behind the row's long line.
fn input_of(alloc: Global, row: &str, sent: &[u8]) -> Result<Vec<u8>, AllocError> {
    let mut input = Vec::new(alloc);
    let long = number(row, "long", 0);
    for _ in 0..long {
        input.push(b'a')?;
    }
    if long > 0 {
        input.push(b'\n')?;
    }
    input.extend_from_slice(sent)?;
    Ok(input)
}

fn link_of(alloc: Global, row: &str, sent: &[u8]) -> Result<FailingLink, AllocError> {
    let reads = Direction::new(
        numbers(alloc, row, "reads")?,
        number(row, "most", 4096) as usize,
    );
    let writes = Direction::new(
        numbers(alloc, row, "writes")?,
        number(row, "taking", 4096) as usize,
    );
    let input = input_of(alloc, row, sent)?;
    Ok(FailingLink::new(alloc, input, reads, writes, Peer::Accepted(PEER)))
}

fn talk_over<R: Wait>(
    rt: &R,
    alloc: Global,
    shared: &SharedCache<FlatCore>,
    vmods: &VmodTable,
    desk: &mut Desk<FailingShelf, ScriptedClock>,
    link: &mut FailingLink,
) -> ConsoleTalk
    requires { IsPassOf shared.now desk.old.pass }
{
    let site = Site {
        rt,
        alloc,
        shared,
        vmods,
    };
    let mut held = Intake::new(alloc);
    let mut room = [0u8; 4096];
    serve_console(&site, desk, link, &mut held, &mut room)
}

fn talk_of<R: Wait>(
    rt: &R,
    alloc: Global,
    row: &str,
    file: Option<Text>,
    link: &mut FailingLink,
) -> Result<ConsoleTalk, AllocError> {
    let Ok(vmods) = VmodTable::of(alloc, Vec::new(alloc)) else {
        return Err(AllocError);
    };
    let (shared, pass) = cache(alloc, row)?;
    let mut desk = desk_of(alloc, row, pass, file)?;
    Ok(talk_over(rt, alloc, &shared, &vmods, &mut desk, link))
}

// Adds the bytes between quotes, or how many they are where they are many.
fn push_quoted(alloc: Global, out: &mut String, bytes: &[u8]) -> Result<(), AllocError> {
    if bytes.len() > 200 {
        return write!(out, "{} bytes", bytes.len());
    }
    let text = quote(alloc, bytes)?;
    out.push_str(str::from_utf8(text.bytes()).unwrap_or("no text"))
}

// A line, its place, its moment and its answer.
fn push_line(alloc: Global, out: &mut String, line: &ConsoleLine) -> Result<(), AllocError> {
    out.push_str("; ")?;
    push_quoted(alloc, out, line.line.bytes())?;
    if let Some(place) = line.place {
        write!(out, " at {place}")?;
    }
    write!(out, " of {} ", line.moment)?;
    push_quoted(alloc, out, line.sent.bytes())
}

fn shown(alloc: Global, talk: &ConsoleTalk, took: &[u8]) -> Result<String, AllocError> {
    let mut out = format!(in alloc; "{:?}", talk.ended)?;
    for line in &talk.lines {
        push_line(alloc, &mut out, line)?;
    }
    out.push_str("; ")?;
    push_quoted(alloc, &mut out, took)?;
    Ok(out)
}

// The quoted text behind the first blank from this place on, if there is one.
fn file_behind(alloc: Global, texts: &[u8], end: usize) -> Result<Option<Text>, AllocError> {
    match quoted(alloc, texts, end.saturating_add(1))? {
        Some((text, _)) => Ok(Some(text)),
        None => Ok(None),
    }
}

/// How the row's talk ended, its lines, and what the operator got.
pub fn talk_shown<R: Wait>(rt: &R, alloc: Global, row: &str) -> Result<String, AllocError> {
    let (settings, texts) = row.split_once(" | ").unwrap_or((row, ""));
    let texts = texts.as_bytes();
    let Some((sent, end)) = quoted(alloc, texts, 0)? else {
        return format!(in alloc; "nothing is sent");
    };
    let file = file_behind(alloc, texts, end)?;
    let mut link = link_of(alloc, settings, sent.bytes())?;
    let talk = talk_of(rt, alloc, settings, file, &mut link)?;
    shown(alloc, &talk, link.took())
}
