// A run over a row's world (`run_worlds.rt`), and what is said of it.
use crate::holding::HoldingGate;
use crate::run_worlds::{operators_of, order_of, world_of};
use crate::telling::push_quoted;
use console_link::ConsoleTalk;
use crew::Sign;
use row_settings::numbers;
use server::{Event, Recorder};
use std::alloc::{AllocError, Global};
use std::sync::Wait;
use std::thread::Threads;
use varn_serve::{Served, serve_with_std};
use wire::FailingSink;
use world::{AcceptedLink, FailingWorld, Gate, OpenGate};

/// What a run comes to whose keepers keep all that they are told.
type Ran = Served<Recorder<AcceptedLink>>;

/// A sign that nobody looks at: the links of a row end by themselves.
struct NoSign;

impl Sign for NoSign {
    fn raise(&self) {}
}

// What clients send in a row, and what operators do.
fn inputs_of(row: &str) -> (&str, &str, &str) {
    let (row, operators) = row.split_once(" ; ").unwrap_or((row, ""));
    let (settings, inputs) = row.split_once('|').unwrap_or((row, ""));
    (settings, inputs, operators)
}

fn sink_of(alloc: Global, settings: &str) -> Result<FailingSink, AllocError> {
    let fails = numbers(alloc, settings, "writes")?;
    Ok(FailingSink::new(alloc, fails, 4096))
}

fn run<R: Threads + Wait + Sync, G: Gate + Sync>(
    rt: &R,
    alloc: Global,
    settings: &str,
    gate: &G,
    world: &mut FailingWorld,
    operators: &mut FailingWorld,
    sink: &mut FailingSink,
) -> Result<Ran, AllocError> {
    let order = order_of(alloc, settings)?;
    Ok(serve_with_std(rt, alloc, &order, world, operators, gate, &NoSign, sink))
}

fn push_status(out: &mut String, served: &Ran) -> Result<(), AllocError> {
    write!(out, "{}", served.status.code())?;
    match served.note {
        Some(note) => write!(out, " place {} kind {}", note.place, note.kind.number()),
        None => Ok(()),
    }
}

fn push_written(alloc: Global, out: &mut String, written: &[u8]) -> Result<(), AllocError> {
    out.push_str(" wrote ")?;
    push_quoted(alloc, out, written)
}

// What each link took, the one that was handed over last first.
fn push_links(alloc: Global, out: &mut String, served: &Ran) -> Result<(), AllocError> {
    for keeper in served.keepers.as_slice().iter().rev() {
        for event in keeper.events.as_slice().iter().rev() {
            if let Event::Over(link, _) = event {
                out.push_str(" took ")?;
                push_quoted(alloc, out, link.took())?;
            }
        }
    }
    Ok(())
}

// How each connection of a worker ended, and how many rounds it had.
fn push_ends(out: &mut String, events: &[Event<AcceptedLink>]) -> Result<(), AllocError> {
    let mut rounds: u64 = 0;
    for event in events {
        match event {
            Event::Led(_) => rounds = rounds.saturating_add(1),
            Event::Over(_, ended) => {
                write!(out, " {ended:?} {rounds}")?;
                rounds = 0;
            }
        }
    }
    Ok(())
}

fn push_connections(out: &mut String, served: &Ran) -> Result<(), AllocError> {
    for keeper in served.keepers.as_slice() {
        push_ends(out, keeper.events.as_slice())?;
    }
    write!(out, " entries {}", served.history.as_slice().len())
}

// How each talk at the console ended, and its lines, each with its place and its answer.
fn push_talks(alloc: Global, out: &mut String, talks: &[ConsoleTalk]) -> Result<(), AllocError> {
    for talk in talks {
        write!(out, " console {:?}", talk.ended)?;
        for line in &talk.lines {
            out.push_str("; ")?;
            push_quoted(alloc, out, line.line.bytes())?;
            if let Some(place) = line.place {
                write!(out, " at {place}")?;
            }
            out.push_str(" ")?;
            push_quoted(alloc, out, line.sent.bytes())?;
        }
    }
    Ok(())
}

// The ports that were asked for at the console's side, if there are any.
fn push_console_ports(out: &mut String, operators: &FailingWorld) -> Result<(), AllocError> {
    match operators.ports() {
        [] => Ok(()),
        ports => write!(out, " console at {ports:?}"),
    }
}

/// The row's run with the status and the note, what was written, what each link that was handed back took, how each connection
/// ended with the number of its rounds, and how many entries the history has.
pub fn run_shown<R: Threads + Wait + Sync>(
    rt: &R,
    alloc: Global,
    row: &str,
) -> Result<String, AllocError> {
    let (settings, inputs, operators) = inputs_of(row);
    let mut world = world_of(alloc, settings, inputs)?;
    let mut operators = operators_of(alloc, settings, operators)?;
    let mut sink = sink_of(alloc, settings)?;
    let served = run(
        rt,
        alloc,
        settings,
        &OpenGate,
        &mut world,
        &mut operators,
        &mut sink,
    )?;
    let mut out = said(alloc, &served, &world, sink.bytes())?;
    push_talks(alloc, &mut out, served.console.as_slice())?;
    push_console_ports(&mut out, &operators)?;
    Ok(out)
}

fn said(
    alloc: Global,
    served: &Ran,
    world: &FailingWorld,
    written: &[u8],
) -> Result<String, AllocError> {
    let mut out = String::new(alloc);
    push_status(&mut out, served)?;
    push_written(alloc, &mut out, written)?;
    push_links(alloc, &mut out, served)?;
    push_connections(&mut out, served)?;
    write!(out, " ports {:?}", world.ports())?;
    Ok(out)
}

/// The row's run past a gate that holds the first caller which would dial until a call of the other one is answered; of it is said
/// what doesn't hang on who came first.
pub fn held_shown<R: Threads + Wait + Sync>(
    rt: &R,
    alloc: Global,
    row: &str,
) -> Result<String, AllocError> {
    let (settings, inputs, operators) = inputs_of(row);
    let mut world = world_of(alloc, settings, inputs)?;
    let mut operators = operators_of(alloc, settings, operators)?;
    let mut sink = sink_of(alloc, settings)?;
    let gate = HoldingGate::new();
    let served = run(
        rt,
        alloc,
        settings,
        &gate,
        &mut world,
        &mut operators,
        &mut sink,
    )?;
    held_said(alloc, &served, sink.bytes(), gate.went_well())
}

fn held_said(
    alloc: Global,
    served: &Ran,
    written: &[u8],
    went_well: bool,
) -> Result<String, AllocError> {
    let mut out = String::new(alloc);
    push_status(&mut out, served)?;
    push_written(alloc, &mut out, written)?;
    let entries = served.history.as_slice().len();
    write!(out, " entries {entries} side by side {went_well}")?;
    Ok(out)
}
