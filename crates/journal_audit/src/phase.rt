// Where a journal that is followed stands, and one line more.
ghost use Rattle.std.specs.Prelude.{◌≡◌, IfOk};
ghost use Rattle.audit_laws.specs.Steps.{Before, Closed, Place};
ghost use Rattle.journal_text.specs.declared.line.Line.TheVariants as lines;
ghost use Rattle.journal_audit.specs.Following.{EndsLine, IsAt, IsLineFault, IsWithin, is_closed as ends};

use crate::{Expected, Fault, Follower};
use audit_laws::Kind;
use journal_text::{Line, Said};
use std::alloc::{AllocError, Global};

/// Where a journal that is followed stands.
#[derive(Drop)]
pub(crate) enum Phase<F> {
    Before,
    Within(F),
    Closed,
}

impl<F> Phase<F> {
    pub(crate) fn is_closed(&self) -> bool
        ensures { result ≡ ends self.now }
    {
        match self {
            Phase::Closed => true,
            Phase::Before | Phase::Within(_) => false,
        }
    }
}

fn open<F: Follower>(alloc: Global, line: Line) -> Result<Result<Phase<F>, Fault>, AllocError>
    ensures { (place : Place) → place ≡ Before → IfOk result (EndsLine F.stands place line) }
{
    match line {
        Line::First(first) => Ok(Ok(Phase::Within(F::start(alloc, first)?))),
        Line::Entry(_) | Line::Cut | Line::Close => Ok(Err(Fault {
            kind: Kind::Text,
            expected: Expected::FirstLine,
        })),
    }
}

fn enter<F: Follower>(
    alloc: Global,
    follower: F,
    said: Said,
) -> Result<Result<Phase<F>, Fault>, AllocError>
    ensures { (place : Place) → IsWithin F.stands follower place → IfOk result (EndsLine F.stands place (lines.Entry said)) }
{
    match follower.enter(alloc, said)? {
        Ok(next) => Ok(Ok(Phase::Within(next))),
        Err(fault) => Ok(Err(fault)),
    }
}

fn cut<F: Follower>(alloc: Global, follower: F) -> Result<Result<Phase<F>, Fault>, AllocError>
    ensures { (place : Place) → IsWithin F.stands follower place → IfOk result (EndsLine F.stands place lines.Cut) }
{
    match follower.cut(alloc)? {
        Ok(next) => Ok(Ok(Phase::Within(next))),
        Err(kind) => Ok(Err(Fault {
            kind,
            expected: Expected::Closed,
        })),
    }
}

fn go_on<F: Follower>(
    alloc: Global,
    follower: F,
    line: Line,
) -> Result<Result<Phase<F>, Fault>, AllocError>
    ensures { (place : Place) → IsWithin F.stands follower place → IfOk result (EndsLine F.stands place line) }
{
    match line {
        Line::First(_) => Ok(Err(Fault {
            kind: Kind::Text,
            expected: Expected::LaterLine,
        })),
        Line::Entry(said) => enter(alloc, follower, said),
        Line::Cut => cut(alloc, follower),
        Line::Close => Ok(Ok(Phase::Closed)),
    }
}

fn behind_end(line: Line) -> Fault
    ensures { IsLineFault Closed line result }
{
    match line {
        Line::First(_) => Fault {
            kind: Kind::Text,
            expected: Expected::Nothing,
        },
        Line::Entry(_) | Line::Cut | Line::Close => Fault {
            kind: Kind::End,
            expected: Expected::Nothing,
        },
    }
}

/// Goes on with a line, or tells what is wrong with it.
pub(crate) fn step<F: Follower>(
    alloc: Global,
    phase: Phase<F>,
    line: Line,
) -> Result<Result<Phase<F>, Fault>, AllocError>
    ensures { (place : Place) → IsAt F.stands phase place → IfOk result (EndsLine F.stands place line) }
{
    match phase {
        Phase::Before => open(alloc, line),
        Phase::Within(follower) => go_on(alloc, follower, line),
        Phase::Closed => Ok(Err(behind_end(line))),
    }
}
