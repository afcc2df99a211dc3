// A dialer in memory whose dials fail at chosen numbers.
ghost use Rattle.std.specs.Prelude.{◌≡◌, ◌++◌, [], ◌∷◌, true, false, None, Some, IsErrOf, IfOk, OnOk, MatchOption};
ghost use Rattle.wire.specs.Causes.{Rose};
ghost use Rattle.wire.specs.Flow.{IsFresh};
ghost use Rattle.wire.specs.DialerMemory.{talks_at, talks_of, talk_of, planned_link, handed_back, Takes, Gives, Fails};
ghost use Rattle.wire.specs.Talks.{Adds, counted_link};
ghost use Rattle.wire.specs.declared.peer.Peer.{Peer as End};

use crate::kept::{Kept, keep, place};
use crate::{Calls, DialError, DialLimits, Dialer, Direction, FailingLink, Peer};
use std::alloc::{AllocError, Global};
use std::collections::VecDeque;
use std::marker::Model;
use units::Text;

/// What came of a dial.
#[derive(Drop)]
pub enum Dial {
    /// It failed.
    Failed(Peer),
    /// Its connection was handed back.
    Ended(FailingLink),
}

impl Dial {
    /// Its connection; None where it failed.
    pub fn link(&self) -> Option<&FailingLink>
        ensures { MatchOption result ((talk_of self.now).link ≡ None) (λ link. (talk_of self.now).link ≡ Some link.now) }
    {
        match self {
            Dial::Failed(_) => None,
            Dial::Ended(link) => Some(link),
        }
    }
}

/// A connection that a dialer is to give: what comes on it, and how its calls go.
#[derive(Drop)]
pub struct Plan {
    pub input: Vec<u8>,
    pub failing_reads: Vec<u64>,
    pub failing_writes: Vec<u64>,
    /// How many bytes a call moves at most.
    pub most: usize,
}

// The connection of a plan.
fn link_of(alloc: Global, plan: Plan, peer: Peer) -> FailingLink
    ensures { result ≡ planned_link plan peer }
{
    let reads = Direction::new(plan.failing_reads, plan.most);
    let writes = Direction::new(plan.failing_writes, plan.most);
    FailingLink::new(alloc, plan.input, reads, writes, peer)
}

/// A connection in memory that was dialed. It has its place among the dials that are over.
pub type DialedLink = FailingLink<Box<Kept<Dial>>>;

/// A dialer over connections in memory, which tells its talks. Its dials are numbered from 0 on; those with the given numbers
/// fail, as does each behind the last planned connection.
#[derive(Drop)]
pub struct FailingDialer {
    alloc: Global,
    planned: VecDeque<Plan>,
    dials: Calls,
    latest: Option<Box<Kept<Dial>>>,
    read_faults: u64,
    write_faults: u64,
}

impl Model for FailingDialer {
    ghost use Rattle.wire.specs.DialerMemory.{DialerState, talks_of};

    ghost Value = { DialerState };

    ghost view = { λ d. record {
      planned = d.planned.items;
      failing = d.dials.failing;
      dials = d.dials.calls;
      talks = talks_of d.latest;
      dial_faults = d.dials.faults;
      read_faults = d.read_faults;
      write_faults = d.write_faults;
    } };
}

fn dialed(host: &Text, port: &Text) -> Result<Peer, AllocError>
    ensures { IfOk result (λ peer. peer ≡ End.Dialed host.now port.now) }
{
    Ok(Peer::Dialed {
        host: host.copy()?,
        port: port.copy()?,
    })
}

// Puts a dial behind the others.
fn add(latest: &mut Option<Box<Kept<Dial>>>, place: Box<Kept<Dial>>, dial: Dial)
    ensures { talks_of latest.new ≡ talks_of latest.old ++ talk_of dial ∷ [] }
{
    keep(latest, place, dial);
}

impl FailingDialer {
    /// A dialer that gives these connections, one behind another.
    pub fn new(alloc: Global, planned: VecDeque<Plan>, failing: Vec<u64>) -> FailingDialer
        ensures { result ≡ record { planned = planned.items; failing = failing.items; dials = 0; talks = []; dial_faults = 0; read_faults = 0; write_faults = 0 } }
    {
        FailingDialer {
            alloc,
            planned,
            dials: Calls::new(failing),
            latest: None,
            read_faults: 0,
            write_faults: 0,
        }
    }

    // Counts a dial, and takes the plan of its connection; None where it fails.
    fn next_plan(&mut self) -> Option<Plan>
        ensures { Takes self.old self.new result }
    {
        if self.dials.call() {
            None
        } else {
            self.planned.pop_front()
        }
    }

    /// The place of the dial that was over last, from which all are told.
    pub fn latest(&self) -> Option<&Kept<Dial>>
        ensures { MatchOption result (self.now.talks ≡ []) (λ place. self.now.talks ≡ talks_at place.now) }
    {
        match &self.latest {
            Some(place) => Some(place),
            None => None,
        }
    }
}

impl Dialer for FailingDialer {
    type Link = DialedLink;

    ghost use Rattle.std.specs.Prelude.{Some};

    ghost talks = { λ d. Some d.talks };

    ghost dial_faults = { λ d. d.dial_faults };

    ghost read_faults = { λ d. d.read_faults };

    ghost write_faults = { λ d. d.write_faults };

    fn within(&mut self, _limits: DialLimits)
        ensures talks { Some self.new.talks ≡ Some self.old.talks }
        ensures dials { self.new.dial_faults ≡ self.old.dial_faults }
        ensures reads { self.new.read_faults ≡ self.old.read_faults }
        ensures writes { self.new.write_faults ≡ self.old.write_faults }
        ensures same { self.new ≡ self.old }
    {}

    fn dial(&mut self, host: &Text, port: &Text) -> Result<DialedLink, DialError>
        ensures fresh { IfOk result (λ link. IsFresh (Some link.flow)) }
        ensures reads { IfOk result (λ link. link.reads.faults ≡ 0) }
        ensures writes { IfOk result (λ link. link.writes.faults ≡ 0) }
        ensures peer { IfOk result (λ link. link.peer ≡ End.Dialed host.now port.now) }
        ensures is_open { IfOk result (λ link. link.is_open ≡ true) }
        ensures dialed { OnOk result ((Some self.new.talks ≡ Some self.old.talks) × (self.new.dial_faults ≡ self.old.dial_faults)) }
        ensures failed { IsErrOf result DialError.Failed → Adds (Some self.old.talks) (Some self.new.talks) (record { peer = End.Dialed host.now port.now; link = None } ∷ [])
            × Rose self.old.dial_faults self.new.dial_faults }
        ensures no_memory { IsErrOf result DialError.NoMemory → (Some self.new.talks ≡ Some self.old.talks) × (self.new.dial_faults ≡ self.old.dial_faults) }
        ensures read_count { self.new.read_faults ≡ self.old.read_faults }
        ensures write_count { self.new.write_faults ≡ self.old.write_faults }
        ensures gives { IfOk result (λ link. Gives self.old self.new (End.Dialed host.now port.now) link) }
        ensures fails { IsErrOf result DialError.Failed → Fails self.old self.new (End.Dialed host.now port.now) }
        ensures same { IsErrOf result DialError.NoMemory → self.new ≡ self.old }
    {
        let peer = dialed(host, port)?;
        let place = place(self.alloc)?;
        if let Some(plan) = self.next_plan() {
            return Ok(link_of(self.alloc, plan, peer).at_place(place));
        }
        add(&mut self.latest, place, Dial::Failed(peer));
        self.dials.fault();
        Err(DialError::Failed)
    }

    fn hang_up(&mut self, link: DialedLink)
        requires closed { link.is_open ≡ false }
        ensures talk { Adds (Some self.old.talks) (Some self.new.talks) (record { peer = link.peer; link = Some link } ∷ []) }
        ensures dials { self.new.dial_faults ≡ self.old.dial_faults }
        ensures reads { self.new.read_faults ≡ counted_link self.old.read_faults link.reads.faults }
        ensures writes { self.new.write_faults ≡ counted_link self.old.write_faults link.writes.faults }
        ensures others { self.new ≡ handed_back self.old link }
    {
        let (link, place) = link.apart();
        if link.read_faults() > 0 {
            self.read_faults = self.read_faults.saturating_add(1);
        }
        if link.write_faults() > 0 {
            self.write_faults = self.write_faults.saturating_add(1);
        }
        add(&mut self.latest, place, Dial::Ended(link));
    }
}
