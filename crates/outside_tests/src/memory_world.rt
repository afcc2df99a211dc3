// What a world in memory gives, which of its calls fail, and what it tells.
use crate::worlds::small_world;
use std::alloc::{AllocError, Global};
use units::Text;
use wire::{Clock, Failed, FailingLink, Kept, Link, write_link};
use world::{Awaited, FailingWorld, Gate, Listener, OpenGate, Place, Shelf, ShelfError, World};

/// What each of the files is found to have.
pub fn push_files<W: World>(
    alloc: Global,
    out: &mut String,
    world: &mut W,
    names: &str,
) -> Result<(), AllocError> {
    let mut shelf = world.shelf()?;
    let pushed = push_read(alloc, out, &mut shelf, names);
    world.retire_shelf(shelf);
    pushed
}

fn push_read<S: Shelf>(
    alloc: Global,
    out: &mut String,
    shelf: &mut S,
    names: &str,
) -> Result<(), AllocError> {
    for name in names.split(' ') {
        let name = Text::of(alloc, name.as_bytes())?;
        push_file(out, shelf.read(&name))?;
    }
    Ok(())
}

fn push_file(out: &mut String, found: Result<Option<Text>, ShelfError>) -> Result<(), AllocError> {
    match found {
        Ok(Some(text)) => write!(out, " {text:?}"),
        Ok(None) => out.push_str(" none"),
        Err(ShelfError::Failed) => out.push_str(" failed"),
        Err(ShelfError::NoMemory) => Err(AllocError),
    }
}

// Whether a kit is told before one was handed back, what its clock tells, whether there is another one, and whether it is told
// then.
fn push_kits(out: &mut String, world: &mut FailingWorld) -> Result<(), AllocError> {
    let before = world.latest_kit().is_some();
    let mut kit = world.kit()?;
    let moment = kit.clock.now();
    world.keep_kit(kit);
    let another = world.kit().is_ok();
    let behind = world.latest_kit().is_some();
    write!(out, "{before} {moment} {another} {behind}")
}

// Greets each connection that comes, and hands it back. How often accepting failed.
fn greet_all<W: World>(world: &mut W, listener: &mut W::Listener) -> u32 {
    let mut failures: u32 = 0;
    for _ in 0..9u32 {
        match listener.accept() {
            Ok(Awaited::Came(mut link, _)) => {
                let _ = write_link(&mut link, b"hello");
                link.shut();
                world.keep_link(link);
            }
            Ok(Awaited::NobodyYet) => {}
            Ok(Awaited::End) => break,
            Err(Failed) => failures = failures.saturating_add(1),
        }
    }
    failures
}

// How often accepting failed at a listener that is handed back, or that there is none at this port.
fn push_greetings<W: World>(out: &mut String, world: &mut W, port: u16) -> Result<(), AllocError> {
    match world.listen(port) {
        Ok(mut listener) => {
            let failures = greet_all(world, &mut listener);
            world.retire(listener);
            write!(out, "{failures} failed ")
        }
        Err(Failed) => out.push_str("no listener "),
    }
}

// What comes of listening at each of the ports in turn.
fn push_listeners(out: &mut String, world: &mut FailingWorld, row: &str) -> Result<(), AllocError> {
    for port in row.split(' ') {
        push_greetings(out, world, port.parse::<u16>().unwrap_or(0))?;
    }
    let (faults, ended) = (world.listen_faults(), world.ended());
    write!(
        out,
        "ports {:?} faults {faults} ended {ended}",
        world.ports()
    )?;
    push_links(out, world.latest_link())
}

// Adds what each link took, the one that was handed back last first.
fn push_links(out: &mut String, latest: Option<&Kept<FailingLink>>) -> Result<(), AllocError> {
    let mut place = latest;
    for _ in 0..9u32 {
        let Some(kept) = place else {
            break;
        };
        if let Some(link) = &kept.item {
            write!(
                out,
                " took {}",
                str::from_utf8(link.took()).unwrap_or("no text")
            )?;
        }
        place = kept.before.as_deref();
    }
    Ok(())
}

/// What is said of the row, by a small world of its own.
pub fn memory_shown(alloc: Global, word: &str, row: &str) -> Result<String, AllocError> {
    OpenGate.point(1, Place::Called);
    let mut world = small_world(alloc)?;
    let mut out = String::new(alloc);
    push_said(alloc, &mut out, &mut world, word, row)?;
    Ok(out)
}

fn push_said(
    alloc: Global,
    out: &mut String,
    world: &mut FailingWorld,
    word: &str,
    row: &str,
) -> Result<(), AllocError> {
    match word {
        "files" => push_files(alloc, out, world, row),
        "kits" => push_kits(out, world),
        "listen" => push_listeners(out, world, row),
        _ => out.push_str("no such row"),
    }
}
