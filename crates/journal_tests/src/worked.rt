// The journal of a run of two segments: one client asks twice for one page.
use crate::made::{entry, object, query, text, texts, view};
use cache_law::{Boot, Call, Entry, Params, Reply};
use directors::{DirectorKind, Member, Target};
use journal_text::{Line, push_entry, push_first, push_line};
use journal_writer::{Closing, JournalError, write_first, write_segment};
use std::alloc::{AllocError, Global};
use units::{Sequence, Shared};
use wire::FailingSink;

/// The limits of the run.
pub const PARAMS: Params = Params {
    room: 1_000_000,
    history: 640,
    segments: true,
};

/// A line of the journal, from 1 on.
pub fn line(alloc: Global, number: usize) -> Result<String, AllocError> {
    let journal = journal(alloc)?;
    let journal = String::from_utf8_lossy(alloc, journal.as_slice())?;
    let line = journal
        .lines()
        .nth(number.saturating_sub(1))
        .unwrap_or("none");
    String::from_str(alloc, line)
}

/// The same of the journal that goes into a sink, which takes a hundred bytes at a time and fails at these calls; or why it wasn't
/// written, and how much of it was.
pub fn written(alloc: Global, number: usize, failing: Vec<u64>) -> Result<String, AllocError> {
    let mut sink = FailingSink::new(alloc, failing, 100);
    if let Err(error) = write(alloc, &mut sink) {
        let taken = sink.bytes().len();
        return format!(in alloc; "{error} behind {taken} bytes");
    }
    let journal = String::from_utf8_lossy(alloc, sink.bytes())?;
    let line = journal
        .lines()
        .nth(number.saturating_sub(1))
        .unwrap_or("none");
    String::from_str(alloc, line)
}

fn write(alloc: Global, sink: &mut FailingSink) -> Result<(), JournalError> {
    write_first(alloc, sink, &PARAMS, &boot(alloc)?)?;
    write_segment(alloc, sink, first_segment(alloc)?.as_slice(), Closing::Cut)?;
    write_segment(
        alloc,
        sink,
        second_segment(alloc)?.as_slice(),
        Closing::Close,
    )
}

/// The opening VCL of the run.
pub fn boot(alloc: Global) -> Result<Boot, AllocError> {
    Ok(Boot {
        text: text(alloc, "vcl 4.1; backend default { .host = \"127.0.0.1\"; }")?,
        backends: texts(alloc, &["default"])?,
    })
}

fn journal(alloc: Global) -> Result<Vec<u8>, AllocError> {
    let mut out = Vec::new(alloc);
    push_first(&mut out, alloc, &PARAMS, &boot(alloc)?)?;
    for entry in first_segment(alloc)? {
        push_entry(&mut out, alloc, &entry)?;
    }
    push_line(&mut out, alloc, &Line::Cut)?;
    for entry in second_segment(alloc)? {
        push_entry(&mut out, alloc, &entry)?;
    }
    push_line(&mut out, alloc, &Line::Close)?;
    Ok(out)
}

fn began(alloc: Global, number: u64) -> Result<Reply, AllocError> {
    Ok(Reply::Began {
        number,
        vcl: 1,
        text: text(alloc, "vcl 4.1;")?,
    })
}

fn pick(alloc: Global) -> Result<Call, AllocError> {
    let mut members = Vec::new(alloc);
    let name = text(alloc, "default")?;
    members.push(Member { name, weight: 1 })?;
    let target = Target {
        kind: DirectorKind::One,
        name: text(alloc, "default")?,
        members: Sequence::from_vec(members),
    };
    Ok(Call::Pick {
        vcl: 1,
        target: Shared::new(alloc, target)?,
        word: 0,
    })
}

fn first_segment(alloc: Global) -> Result<Vec<Entry>, AllocError> {
    let mut entries = Vec::new(alloc);
    entries.push(entry(Call::Begin, began(alloc, 1)?))?;
    let missed = Reply::Miss {
        token: 2,
        stale: None,
    };
    entries.push(entry(Call::Lookup(query(alloc)?), missed))?;
    let picked = Reply::Picked(Some(text(alloc, "default")?));
    entries.push(entry(pick(alloc)?, picked))?;
    let insert = Call::Insert {
        token: 2,
        object: object(alloc)?,
        stale: None,
    };
    entries.push(entry(insert, Reply::Stored(2)))?;
    entries.push(entry(Call::End, Reply::Ended))?;
    Ok(entries)
}

fn second_segment(alloc: Global) -> Result<Vec<Entry>, AllocError> {
    let mut entries = Vec::new(alloc);
    entries.push(entry(Call::Begin, began(alloc, 3)?))?;
    entries.push(entry(Call::Lookup(query(alloc)?), Reply::Hit(view(alloc)?)))?;
    entries.push(entry(Call::End, Reply::Ended))?;
    Ok(entries)
}
