// One line more.
ghost use Rattle.std.specs.Prelude.{◌≡◌, ◌+◌, ◌≤◌, ◌^◌, List, IfOk};
ghost use Rattle.audit_laws.specs.declared.kind.Kind.TheVariants as kinds;
ghost use Rattle.audit_laws.specs.Steps.{Step as JournalStep};
ghost use Rattle.journal_audit.specs.Counts.{cut_weight, entry_weight};
ghost use Rattle.journal_audit.specs.declared.going.Found.TheVariants as found;
ghost use Rattle.journal_audit.specs.Feeding.{EndsCourse, IsOn};

use crate::course::Course;
use crate::phase::step;
use crate::{Expected, Fault, Follower};
use audit_laws::Kind;
use journal_reader::{ReadError, read_line};
use journal_text::Line;
use std::alloc::{AllocError, Global};

/// What an audit has found so far.
#[derive(Drop)]
pub(crate) enum Found<F> {
    Going(Course<F>),
    Bad { line: u32, fault: Fault },
}

fn entry_count(line: &Line) -> u64
    ensures { result ≡ entry_weight line.now }
{
    match line {
        Line::Entry(_) => 1,
        Line::First(_) | Line::Cut | Line::Close => 0,
    }
}

fn cut_count(line: &Line) -> u64
    ensures { result ≡ cut_weight line.now }
{
    match line {
        Line::Cut => 1,
        Line::First(_) | Line::Entry(_) | Line::Close => 0,
    }
}

// The text behind so many lines is none.
fn no_line<F: Follower>(lines: u32, expected: Expected) -> Found<F>
    requires { lines ≤ 2 ^ 30 }
    ensures { result ≡ found.Bad (lines + 1) (record { kind = kinds.Text; expected = expected }) }
{
    Found::Bad {
        line: lines + 1,
        fault: Fault {
            kind: Kind::Text,
            expected,
        },
    }
}

impl<F: Follower> Course<F> {
    /// Goes on with the text of a line.
    pub(crate) fn go_on(self, alloc: Global, text: &[u8]) -> Result<Found<F>, AllocError>
        ensures { (steps : List JournalStep) → IsOn F.stands self steps → IfOk result (EndsCourse F.stands steps text.now) }
    {
        let Course {
            phase,
            room,
            lines,
            entries,
            cuts,
        } = self;
        if text.len() >= room {
            return Ok(no_line(lines, Expected::FewerBytes));
        }
        let line = match read_line(alloc, text) {
            Ok(line) => line,
            Err(ReadError::Refused(refusal)) => {
                return Ok(no_line(lines, Expected::Line(refusal)));
            }
            Err(ReadError::NoMemory) => return Err(AllocError),
        };
        let entries = entries + entry_count(&line);
        let cuts = cuts + cut_count(&line);
        match step(alloc, phase, line)? {
            Ok(phase) => Ok(Found::Going(Course {
                phase,
                room: room - text.len() - 1,
                lines: lines + 1,
                entries,
                cuts,
            })),
            Err(fault) => Ok(Found::Bad {
                line: lines + 1,
                fault,
            }),
        }
    }
}
