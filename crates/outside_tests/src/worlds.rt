// A world in memory, in parts: what comes to it, its files and its kits.
use std::alloc::{AllocError, Global};
use std::collections::VecDeque;
use units::Text;
use wire::Plan;
use world::{Coming, FailingWorld, File, Listening, PlannedKit};

fn coming(alloc: Global, last: u8) -> Result<Coming, AllocError> {
    let plan = Plan {
        input: b"GET".to_vec(alloc)?,
        failing_reads: Vec::new(alloc),
        failing_writes: Vec::new(alloc),
        most: 9,
    };
    Coming::new(alloc, plan, [10, 0, 0, last])
}

fn arrivals(alloc: Global) -> Result<VecDeque<Coming>, AllocError> {
    let mut arrivals = VecDeque::new(alloc);
    arrivals.push_back(coming(alloc, 1)?)?;
    arrivals.push_back(coming(alloc, 2)?)?;
    Ok(arrivals)
}

fn listening(alloc: Global) -> Result<Listening, AllocError> {
    Ok(Listening {
        coming: arrivals(alloc)?,
        failing: vec![in alloc; 1]?,
        quiet: 1,
    })
}

fn file(alloc: Global) -> Result<File, AllocError> {
    Ok(File {
        name: Text::of(alloc, b"a.vcl")?,
        text: Text::of(alloc, b"vcl 4.1;")?,
    })
}

fn kit(alloc: Global) -> Result<PlannedKit, AllocError> {
    let readings = vec![in alloc; 5]?;
    let words = vec![in alloc; 9]?;
    PlannedKit::new(
        alloc,
        VecDeque::new(alloc),
        Vec::new(alloc),
        readings,
        words,
    )
}

// What a world is made of.
#[derive(Drop)]
struct Parts {
    listening: VecDeque<Listening>,
    failing_listens: Vec<u64>,
    files: Vec<File>,
    failing_shelves: Vec<u64>,
    kits: VecDeque<PlannedKit>,
}

fn fill(alloc: Global, parts: &mut Parts) -> Result<(), AllocError> {
    parts.listening.push_back(listening(alloc)?)?;
    parts.failing_listens.push(1)?;
    parts.files.push(file(alloc)?)?;
    parts.failing_shelves.push(1)?;
    parts.kits.push_back(kit(alloc)?)?;
    Ok(())
}

/// One listener, to which two connections come, whose first call finds nobody yet and whose second one fails; one file; one kit,
/// whose clock tells 5. The second listening, and the second reading of a file at a shelf, fail.
pub fn small_world(alloc: Global) -> Result<FailingWorld, AllocError> {
    let mut parts = Parts {
        listening: VecDeque::new(alloc),
        failing_listens: Vec::new(alloc),
        files: Vec::new(alloc),
        failing_shelves: Vec::new(alloc),
        kits: VecDeque::new(alloc),
    };
    fill(alloc, &mut parts)?;
    let Parts {
        listening,
        failing_listens,
        files,
        failing_shelves,
        kits,
    } = parts;
    Ok(FailingWorld::new(
        alloc,
        listening,
        failing_listens,
        files,
        failing_shelves,
        kits,
    ))
}
