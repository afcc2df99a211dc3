// The worlds of a run. A row has settings and, behind each bar, what a client sends, between quotes; behind a semicolon, with bars between
// them, what operators send at the console. The settings are `workers` and `conns`, `cli` for the console's port, `history` for the most
// bytes of the history, `vcl` for the file of the VCL, `kits` for how many kits there are at most, and `listens`, `accepts` and `writes`
// for the calls that fail; `operators` is `unheard` where listening for operators fails.
use command_line::ServeOptions;
use row_settings::{number, numbers, numbers_of, setting};
use std::alloc::{AllocError, Global};
use std::collections::VecDeque;
use units::{Text, quoted};
use wire::Plan;
use world::{Coming, FailingWorld, File, Listening, PlannedKit};

const BOOT: &[u8] = b"vcl 4.1; backend default { .host = \"127.0.0.1\"; .port = \"8080\"; }";

const REFUSED: &[u8] = b"vcl 4.1; sub x { $ }";

const PAGE: &[u8] = b"HTTP/1.1 200 OK\r\nContent-Length: 2\r\n\r\nhi";

const LIMIT: u64 = 268_435_456;

fn count(row: &str, name: &str, usual: u32) -> u32 {
    setting(row, name).parse::<u32>().unwrap_or(usual)
}

// The console's port, if the row has one.
fn port_of(settings: &str) -> Option<u16> {
    setting(settings, "cli").parse::<u16>().ok()
}

pub fn order_of(alloc: Global, settings: &str) -> Result<ServeOptions, AllocError> {
    Ok(ServeOptions {
        port: 1,
        file: Text::of(alloc, b"f")?,
        workers: count(settings, "workers", 1),
        conns: count(settings, "conns", 1),
        cli: port_of(settings),
        room: LIMIT,
        history: number(settings, "history", LIMIT),
    })
}

fn plan_of(alloc: Global, input: &[u8]) -> Result<Plan, AllocError> {
    Ok(Plan {
        input: input.to_vec(alloc)?,
        failing_reads: Vec::new(alloc),
        failing_writes: Vec::new(alloc),
        most: 4096,
    })
}

fn coming(alloc: Global, inputs: &str) -> Result<VecDeque<Coming>, AllocError> {
    let mut coming = VecDeque::new(alloc);
    for part in inputs.split('|') {
        if let Some((input, _)) = quoted(alloc, part.trim().as_bytes(), 0)? {
            let plan = plan_of(alloc, input.bytes())?;
            coming.push_back(Coming::new(alloc, plan, [10, 0, 0, 1])?)?;
        }
    }
    Ok(coming)
}

fn listeners(
    alloc: Global,
    inputs: &str,
    failing: Vec<u64>,
    quiet: u64,
) -> Result<VecDeque<Listening>, AllocError> {
    let mut listeners = VecDeque::new(alloc);
    listeners.push_back(Listening {
        coming: coming(alloc, inputs)?,
        failing,
        quiet,
    })?;
    Ok(listeners)
}

fn files(alloc: Global, vcl: &str) -> Result<Vec<File>, AllocError> {
    let mut files = Vec::new(alloc);
    if vcl == "missing" {
        return Ok(files);
    }
    let text = if vcl == "refused" { REFUSED } else { BOOT };
    files.push(File {
        name: Text::of(alloc, b"f")?,
        text: Text::of(alloc, text)?,
    })?;
    Ok(files)
}

fn dials(alloc: Global) -> Result<VecDeque<Plan>, AllocError> {
    let mut dials = VecDeque::new(alloc);
    for _ in 0..4u32 {
        dials.push_back(plan_of(alloc, PAGE)?)?;
    }
    Ok(dials)
}

// A kit whose dials give pages, with a clock at 0, for each worker.
fn kits(alloc: Global, settings: &str) -> Result<VecDeque<PlannedKit>, AllocError> {
    let mut kits = VecDeque::new(alloc);
    for _ in 0..count(settings, "workers", 1).min(count(settings, "kits", 64)) {
        let (readings, words) = (vec![in alloc; 0]?, vec![in alloc; 0]?);
        let dials = dials(alloc)?;
        let kit = PlannedKit::new(alloc, dials, Vec::new(alloc), readings, words)?;
        kits.push_back(kit)?;
    }
    Ok(kits)
}

pub fn world_of(alloc: Global, settings: &str, inputs: &str) -> Result<FailingWorld, AllocError> {
    let vcl = setting(settings, "vcl");
    let failing_shelves = if vcl == "unreadable" { "0" } else { "" };
    let failing_accepts = numbers(alloc, settings, "accepts")?;
    let quiet = number(settings, "quiet", 0);
    let listeners = listeners(alloc, inputs, failing_accepts, quiet)?;
    let failing_listens = numbers(alloc, settings, "listens")?;
    let files = files(alloc, vcl)?;
    let failing_shelves = numbers_of(alloc, failing_shelves)?;
    let kits = kits(alloc, settings)?;
    Ok(FailingWorld::new(
        alloc,
        listeners,
        failing_listens,
        files,
        failing_shelves,
        kits,
    ))
}

// A kit of which nothing is dialed, with a clock at 0.
fn console_kits(alloc: Global) -> Result<VecDeque<PlannedKit>, AllocError> {
    let (readings, words) = (vec![in alloc; 0]?, vec![in alloc; 0]?);
    let kit = PlannedKit::new(
        alloc,
        VecDeque::new(alloc),
        Vec::new(alloc),
        readings,
        words,
    )?;
    let mut kits = VecDeque::new(alloc);
    kits.push_back(kit)?;
    Ok(kits)
}

/// The world of the console, with operators who send these.
pub fn operators_of(
    alloc: Global,
    settings: &str,
    inputs: &str,
) -> Result<FailingWorld, AllocError> {
    let unheard = if setting(settings, "operators") == "unheard" {
        "0"
    } else {
        ""
    };
    let listeners = listeners(alloc, inputs, Vec::new(alloc), 0)?;
    let failing_listens = numbers_of(alloc, unheard)?;
    let failing_shelves = Vec::new(alloc);
    Ok(FailingWorld::new(
        alloc,
        listeners,
        failing_listens,
        files(alloc, "")?,
        failing_shelves,
        console_kits(alloc)?,
    ))
}
