// The audit of a text that comes in pieces.
ghost use Rattle.std.specs.Prelude.{◌≡◌, ◌++◌, ◌∷◌, [], ℕ, List, IfOk, MatchOption};
ghost use Rattle.std.specs.List.{position};
ghost use Rattle.units.specs.Signs.{line_feed};
ghost use Rattle.audit_laws.specs.Faults.{HasNoFeed};
ghost use Rattle.journal_audit.specs.Feeding.{HasFeedAt, IsFed, IsFinding, IsGoing, IsParted, is_feed};

use crate::course::Course;
use crate::going::Found;
use crate::phase::Phase;
use crate::{Expected, Follower};
use audit_laws::Kind;
use std::alloc::{AllocError, Global};

/// What a text is as a journal.
#[derive(Drop)]
pub enum Finding {
    Legal {
        entries: u64,
        segments: u64,
    },
    /// The first bad line, the least kind of what is wrong with it, and what was expected there.
    Bad {
        line: u32,
        kind: Kind,
        expected: Expected,
    },
}

/// It is fed the text of a journal in pieces.
#[derive(Drop)]
pub struct Auditor<F> {
    found: Found<F>,
    /// What stands behind the last LF.
    held: Vec<u8>,
}

/// The most bytes that a journal has.
const MOST_BYTES: usize = 1 << 30;

fn feed_place(bytes: &[u8]) -> Option<usize>
    ensures { result ≡ position is_feed bytes.now }
{
    bytes.iter().position(|byte| *byte == b'\n')
}

// The place of the first LF.
fn first_feed(bytes: &[u8]) -> Option<usize>
    ensures { MatchOption result (HasNoFeed bytes.now) (HasFeedAt bytes.now) }
{
    feed_place(bytes)
}

// The bytes up to the first LF, and those behind it.
#[tactic(auto, using(crate::proofs::Pieces::parted_as))]
fn split_line(bytes: &[u8]) -> Option<(&[u8], &[u8])>
    ensures { MatchOption result (HasNoFeed bytes.now) (λ x. IsParted bytes.now x.0.now x.1.now) }
{
    let place = first_feed(bytes)?;
    Some((&bytes[..place], &bytes[place + 1..]))
}

impl<F: Follower> Auditor<F> {
    /// It was fed nothing.
    pub fn new(alloc: Global) -> Auditor<F>
        ensures { IsFed F.stands result [] }
    {
        Auditor {
            found: Found::Going(Course {
                phase: Phase::Before,
                room: MOST_BYTES,
                lines: 0,
                entries: 0,
                cuts: 0,
            }),
            held: Vec::new(alloc),
        }
    }

    // With bytes that have no LF.
    fn hold(self, part: &[u8]) -> Result<Auditor<F>, AllocError>
        requires { HasNoFeed part.now }
        ensures { (bytes : List ℕ) → IsFed F.stands self bytes → IfOk result (λ next. IsFed F.stands next (bytes ++ part.now)) }
    {
        let Auditor { found, held } = self;
        let mut held = held;
        held.extend_from_slice(part)?;
        Ok(Auditor { found, held })
    }

    // With a LF.
    fn end_line(self, alloc: Global) -> Result<Auditor<F>, AllocError>
        ensures { (bytes : List ℕ) → IsFed F.stands self bytes → IfOk result (λ next. IsFed F.stands next (bytes ++ line_feed ∷ [])) }
    {
        let Auditor { found, held } = self;
        let mut held = held;
        let found = match found {
            Found::Going(course) => course.go_on(alloc, held.as_slice())?,
            Found::Bad { line, fault } => Found::Bad { line, fault },
        };
        held.clear();
        Ok(Auditor { found, held })
    }

    /// With one piece more. An error means that memory was wanting.
    pub fn feed(self, alloc: Global, piece: &[u8]) -> Result<Auditor<F>, AllocError>
        ensures { (bytes : List ℕ) → IsFed F.stands self bytes → IfOk result (λ next. IsFed F.stands next (bytes ++ piece.now)) }
    {
        let mut auditor = self;
        let mut rest = piece;
        'lines: while let Some((line, behind)) = split_line(rest) {
            auditor = auditor.hold(line)?.end_line(alloc)?;
            rest = behind;
        }
        auditor.hold(rest)
    }

    /// What the text is, of which no more comes.
    pub fn finish(self) -> Finding
        ensures { (bytes : List ℕ) → IsFed F.stands self bytes → IsFinding bytes result }
    {
        let Auditor { found, held } = self;
        match found {
            Found::Going(course) => course.finding(held.as_slice()),
            Found::Bad { line, fault } => Finding::Bad {
                line,
                kind: fault.kind,
                expected: fault.expected,
            },
        }
    }
}

impl<F: Follower> Course<F> {
    // What the text is, behind whose last LF this is held.
    fn finding(&self, held: &[u8]) -> Finding
        ensures { (bytes : List ℕ) → IsGoing F.stands self.now held.now bytes → IsFinding bytes result }
    {
        if !held.is_empty() {
            return Finding::Bad {
                line: self.lines + 1,
                kind: Kind::Text,
                expected: Expected::LineFeed,
            };
        }
        if !self.phase.is_closed() {
            return Finding::Bad {
                line: self.lines + 1,
                kind: Kind::End,
                expected: Expected::Close,
            };
        }
        Finding::Legal {
            entries: self.entries,
            segments: self.cuts + 1,
        }
    }
}

/// What a text is as a journal. An error means that memory was wanting.
pub fn audit<F: Follower>(alloc: Global, bytes: &[u8]) -> Result<Finding, AllocError>
    ensures { IfOk result (IsFinding bytes.now) }
{
    let auditor = Auditor::<F>::new(alloc);
    Ok(auditor.feed(alloc, bytes)?.finish())
}
