// Laws of sessions, as contracts of functions that do nothing.
ghost use Rattle.std.specs.Prelude.{List, ℕ};
ghost use Rattle.cache_law.specs.Beginning.{Beginning};
ghost use Rattle.vmod_host.specs.declared.signature.Stored.{Stored as StoredFunction};
ghost use Rattle.vcl_runs.specs.Languages.{language_of};
ghost use Rattle.replay.specs.Plan.{plan_of};
ghost use Rattle.replay.specs.Turns.{Wants};
ghost use Rattle.replay.specs.Laws.{BringsPlainText, ConsoleIsHeard, LeadsToOne, OneEnding, OneHistory, OneSession, OneText};

use crate::Policy;
use vcl_runs::{Programs, Runner};

/// Over given entries a session that is led by this policy has one scene and one text.
pub fn one_text<P: Policy>()
    ensures { (beginning : Beginning) → OneText (plan_of P.wants beginning) }
{}

/// A session that is led by this policy has one history in which the law leaves each entry one answer: in
/// which no insertion was refused and no list of bans asked for.
pub fn one_history<P: Policy>()
    ensures { (beginning : Beginning) → OneHistory (plan_of P.wants beginning) }
{}

/// A session that is led by this policy ends in one way, over a history and over all in which the law
/// leaves each entry one answer.
pub fn one_ending<P: Policy>()
    ensures { (beginning : Beginning) → OneEnding (plan_of P.wants beginning) }
{}

/// A session ends in one way, when it is led by this policy and the texts of VCLs that its lines of the console bring are plain:
/// over a history, and over all in which the law leaves each entry one answer. Its history and its text are one with its ending.
pub fn one_session<P: Policy>()
    ensures { (beginning : Beginning) → OneSession (plan_of P.wants beginning) }
{}

/// A line of the console leads to one thing, where the text of a VCL that it brings is plain.
pub fn one_instruction()
    ensures { (stored : List StoredFunction) (line : List ℕ) → BringsPlainText line → LeadsToOne stored line }
{}

/// No line of the console is idle: where a session is idle at a line, one of its other lines has that number.
pub fn console_is_heard<M: Runner, L: Programs<M>>()
    ensures { (beginning : Beginning) → ConsoleIsHeard (plan_of (Wants (language_of L.of_text M.turns M.targets M.default_of L.backends)) beginning) }
{}
