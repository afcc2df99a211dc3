// What connections came to.
ghost use Rattle.std.specs.Prelude.{◌≡◌, List, IfOk};
ghost use Rattle.std.specs.List.{AllZip};
ghost use Rattle.wire.specs.Causes.{Rose};
ghost use Rattle.server.specs.Keeping.{tally_of};
ghost use Rattle.server.specs.declared.keeping.Event.{Event};
ghost use Rattle.crew.specs.Parts.{all_events};
ghost use Rattle.varn_serve.specs.Endings.{by_reason, has_full, is_full_end, rounds_line, verdict_of, Reports};

use crate::ending::Status;
use console_link::{ConsoleEnd, ConsoleTalk};
use entrance::Reason;
use server::{Keeper, Tally};
use std::alloc::{AllocError, Global};
use wire::{Sink, write_all};

/// What these keepers counted together.
pub(crate) fn tally_all<L, N: Keeper<L>>(keepers: &[N]) -> Tally
    ensures { (told : List (List (Event L))) → AllZip N.Told keepers.now told → result ≡ tally_of (all_events told) }
{
    match keepers {
        [] => Tally::none(),
        [first, rest @ ..] => first.tally().plus(tally_all::<L, N>(rest)),
    }
}

// How a run ends whose workers left for this reason, but for what connections came to.
fn by_reason(reason: Reason) -> Status
    ensures { result ≡ by_reason reason }
{
    match reason {
        Reason::Full | Reason::Ended => Status::Done,
        Reason::Failed => Status::ListenFault,
        Reason::NoMemory => Status::NoMemory,
    }
}

// Whether a talk that ended so found the history full.
fn is_full_end(ended: ConsoleEnd) -> bool
    ensures { result ≡ is_full_end ended }
{
    match ended {
        ConsoleEnd::HistoryFull => true,
        ConsoleEnd::Quit => false,
        ConsoleEnd::Closed => false,
        ConsoleEnd::TooLong => false,
        ConsoleEnd::ReadFault => false,
        ConsoleEnd::WriteFault => false,
        ConsoleEnd::NoMemory => false,
    }
}

/// Whether one of these talks found the history full.
pub(crate) fn has_full(talks: &[ConsoleTalk]) -> bool
    ensures { result ≡ has_full talks.now }
{
    match talks {
        [] => false,
        [first, rest @ ..] => is_full_end(first.ended) || has_full(rest),
    }
}

/// How a run ends whose workers left for this reason, and in which a connection or a talk found the history full or didn't.
pub(crate) fn verdict(reason: Reason, is_full: bool) -> Status
    ensures { result ≡ verdict_of reason is_full }
{
    if is_full {
        Status::HistoryFull
    } else {
        by_reason(reason)
    }
}

fn rounds_line(alloc: Global, rounds: u64) -> Result<Vec<u8>, AllocError>
    ensures { IfOk result (λ line. line.items ≡ rounds_line rounds) }
{
    let mut line = Vec::new(alloc);
    line.extend_from_slice(b"rounds ")?;
    line.extend_from_slice(rounds.to_string(alloc)?.as_bytes())?;
    line.extend_from_slice(b"\n")?;
    Ok(line)
}

/// Writes how many rounds all connections had, and says how the run ends that was whole but for that.
pub(crate) fn report<S: Sink>(alloc: Global, sink: &mut S, rounds: u64) -> Status
    ensures { Reports (S.held sink.old) (S.held sink.new) (Rose (S.faults sink.old) (S.faults sink.new)) rounds result }
{
    match rounds_line(alloc, rounds) {
        Ok(line) => match write_all(sink, line.as_slice()) {
            Ok(()) => Status::Done,
            Err(_) => Status::WriteFault,
        },
        Err(_) => Status::NoMemory,
    }
}
