// The audit of a source.
ghost use Rattle.std.specs.Prelude.{◌≡◌, None};
ghost use Rattle.varn_audit.specs.Run.{Ends, Tells, audited_as};
ghost use Rattle.wire.specs.Causes.{Rose};

use crate::outcome::{Audited, Note, Status};
use crate::reading::read_through;
use crate::texts::finding_text;
use journal_audit::Finding;
use std::alloc::Global;
use wire::{ReadError, Sink, Source, write_all};

fn hindered(status: Status) -> Audited
    ensures { result ≡ record { status = status; note = None } }
{
    Audited { status, note: None }
}

fn status_of(finding: Finding) -> Audited
    ensures { result ≡ audited_as finding }
{
    match finding {
        Finding::Legal { .. } => Audited {
            status: Status::Legal,
            note: None,
        },
        Finding::Bad {
            line,
            kind,
            expected,
        } => Audited {
            status: Status::Illegal,
            note: Some(Note {
                line,
                kind,
                expected,
            }),
        },
    }
}

// Writes what was found.
#[tactic(auto, using(crate::proofs::Ends::told_whole))]
fn tell<K: Sink>(alloc: Global, finding: Finding, sink: &mut K) -> Audited
    ensures tells { Tells (K.held sink.old) (K.held sink.new) finding result result.status }
    ensures cause { result.status ≡ Status.WriteFault → Rose (K.faults sink.old) (K.faults sink.new) }
{
    let text = match finding_text(alloc, &finding) {
        Ok(text) => text,
        Err(_) => return hindered(Status::NoMemory),
    };
    match write_all(sink, text.as_slice()) {
        Ok(()) => status_of(finding),
        Err(_) => hindered(Status::WriteFault),
    }
}

/// Reads the source to its end, or until more bytes have come than a journal has, and writes what these are as a journal.
#[tactic(auto, using(crate::proofs::Ends::ends))]
pub fn run_audit<S: Source, K: Sink>(alloc: Global, source: &mut S, sink: &mut K) -> Audited
    ensures ends { Ends (S.left source.old) (S.left source.new) (K.held sink.old) (K.held sink.new) result }
    ensures read_fault { result.status ≡ Status.ReadFault → Rose (S.faults source.old) (S.faults source.new) }
    ensures write_fault { result.status ≡ Status.WriteFault → Rose (K.faults sink.old) (K.faults sink.new) }
{
    match read_through(alloc, source) {
        Ok(auditor) => tell(alloc, auditor.finish(), sink),
        Err(ReadError::Failed) => hindered(Status::ReadFault),
        Err(ReadError::NoMemory) => hindered(Status::NoMemory),
    }
}
