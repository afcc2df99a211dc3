// A world in memory whose calls fail at chosen numbers.
ghost use Rattle.std.specs.Prelude.{◌≡◌, ◌≤◌, ◌||◌, ◌++◌, ◌⊎◌, [], ◌∷◌, drop, false, Some, Contains, IsErr, IfOk, OnErr, OnOk, MatchOption};
ghost use Rattle.wire.specs.Causes.{HasCause, next_count};
ghost use Rattle.wire.specs.Calls.{joined_count, missed, uncalled};
ghost use Rattle.wire.specs.Kept.{items_at};
ghost use Rattle.wire.specs.Talks.{Adds};
ghost use Rattle.world.specs.Keeping.{IsNothingYet, IsUntold, MayAdd};
ghost use Rattle.world.specs.WorldMemory.{first_kit, first_listener, forgotten, listened, refused, reshelved, retired};

use crate::failing_listener::AcceptedLink;
use crate::planned_kit::KitClock;
use crate::{Coming, FailingListener, FailingShelf, File, Kit, Listener, PlannedKit, World};
use std::alloc::{AllocError, Global};
use std::collections::VecDeque;
use std::marker::Model;
use units::{Copied, Sequence};
use wire::{Calls, Failed, FailingDialer, FailingLink, Kept, ScriptedClock, keep};

/// A listener that a world is to give: what comes to it, the numbers of its calls that fail, and how many waits find nobody yet.
#[derive(Drop)]
pub struct Listening {
    pub coming: VecDeque<Coming>,
    pub failing: Vec<u64>,
    pub quiet: u64,
}

/// A world in memory, which tells all that it was handed back. Its calls of `listen`, and those of each of its shelves, are numbered
/// from 0 on; those with the given numbers fail, as does each `listen` behind the last planned listener and one for whose port
/// memory is wanting. Behind the last planned kit memory is wanting for a further one.
#[derive(Drop)]
pub struct FailingWorld {
    alloc: Global,
    listening: VecDeque<Listening>,
    listens: Calls,
    files: Sequence<File>,
    failing_reads: Vec<u64>,
    read_faults: u64,
    planned: VecDeque<PlannedKit>,
    ports: Vec<u16>,
    links: Option<Box<Kept<FailingLink>>>,
    kept: u64,
    given: u64,
    kits: Option<Box<Kept<Kit<FailingDialer, ScriptedClock>>>>,
    ended: bool,
}

impl Model for FailingWorld {
    ghost use Rattle.wire.specs.Kept.{items_of};
    ghost use Rattle.world.specs.WorldMemory.{WorldState};

    ghost Value = { WorldState };

    ghost view = { λ w. record {
      listening = w.listening.items;
      listens = w.listens;
      files = w.files;
      failing_reads = w.failing_reads.items;
      read_faults = w.read_faults;
      planned = w.planned.items;
      ports = w.ports.items;
      links = items_of w.links;
      kept = w.kept;
      given = w.given;
      kits = items_of w.kits;
      ended = w.ended;
    } };
}

impl FailingWorld {
    /// A world of these files, which gives these listeners and kits in order.
    pub fn new(
        alloc: Global,
        listening: VecDeque<Listening>,
        failing_listens: Vec<u64>,
        files: Vec<File>,
        failing_reads: Vec<u64>,
        planned: VecDeque<PlannedKit>,
    ) -> FailingWorld
        ensures { result ≡ record {
          listening = listening.items;
          listens = uncalled failing_listens.items;
          files = files.items;
          failing_reads = failing_reads.items;
          read_faults = 0;
          planned = planned.items;
          ports = [];
          links = [];
          kept = 0;
          given = 0;
          kits = [];
          ended = false;
        } }
    {
        FailingWorld {
            alloc,
            listening,
            listens: Calls::new(failing_listens),
            files: Sequence::from_vec(files),
            failing_reads,
            read_faults: 0,
            planned,
            ports: Vec::new(alloc),
            links: None,
            kept: 0,
            given: 0,
            kits: None,
            ended: false,
        }
    }

    /// The ports that were asked for.
    pub fn ports(&self) -> &[u16]
        ensures { result.now ≡ self.now.ports }
    {
        self.ports.as_slice()
    }

    /// The place of the connection that was handed back last, from which all are told.
    pub fn latest_link(&self) -> Option<&Kept<FailingLink>>
        ensures { MatchOption result (self.now.links ≡ []) (λ place. self.now.links ≡ items_at place.now) }
    {
        match &self.links {
            Some(place) => Some(place),
            None => None,
        }
    }

    /// The same of the kits.
    pub fn latest_kit(&self) -> Option<&Kept<Kit<FailingDialer, ScriptedClock>>>
        ensures { MatchOption result (self.now.kits ≡ []) (λ place. self.now.kits ≡ items_at place.now) }
    {
        match &self.kits {
            Some(place) => Some(place),
            None => None,
        }
    }

    /// How often listening or accepting failed.
    pub fn listen_faults(&self) -> u64
        ensures { result ≡ self.now.listens.faults }
    {
        self.listens.faults()
    }

    /// Whether a listener that was handed back said its end.
    pub fn ended(&self) -> bool
        ensures { result ≡ self.now.ended }
    {
        self.ended
    }

    fn refuse(&mut self) -> Failed
        ensures same { self.new ≡ record self.old { listens = missed self.old.listens } }
        ensures later { self.old.listens.faults ≤ self.new.listens.faults }
    {
        self.listens.fault();
        Failed
    }
}

impl World for FailingWorld {
    type Listener = FailingListener;

    type Dialer = FailingDialer;

    type Clock = KitClock;

    type Shelf = FailingShelf;

    ghost use Rattle.std.specs.Prelude.{Some};

    ghost ports = { λ w. Some w.ports };

    ghost links = { λ w. Some w.links };

    ghost kept = { λ w. w.kept };

    ghost given = { λ w. w.given };

    ghost kits = { λ w. Some w.kits };

    ghost files = { λ w. Some w.files };

    ghost listen_faults = { λ w. w.listens.faults };

    ghost shelf_faults = { λ w. w.read_faults };

    ghost ended = { λ w. w.ended };

    fn listen(&mut self, port: u16) -> Result<FailingListener, Failed>
        ensures none { IfOk result (λ listener. listener.accepts.faults ≡ 0) }
        ensures given_none { IfOk result (λ listener. listener.given ≡ 0) }
        ensures going { IfOk result (λ listener. listener.ended ≡ false) }
        ensures cause { HasCause self.old.listens.faults self.new.listens.faults result }
        ensures port { OnOk result (Adds (Some self.old.ports) (Some self.new.ports) (port ∷ [])) }
        ensures asked { OnErr result (MayAdd (Some self.old.ports) (Some self.new.ports) port) }
        ensures links { Some self.new.links ≡ Some self.old.links }
        ensures kept { self.new.kept ≡ self.old.kept }
        ensures given { self.new.given ≡ self.old.given }
        ensures kits { Some self.new.kits ≡ Some self.old.kits }
        ensures files { Some self.new.files ≡ Some self.old.files }
        ensures shelves { self.new.read_faults ≡ self.old.read_faults }
        ensures ended { self.new.ended ≡ self.old.ended }
        ensures fails { Contains self.old.listens.failing self.old.listens.calls → IsErr result }
        ensures gives { IfOk result (λ listener. Some listener ≡ first_listener self.old.listening) }
        ensures next { OnOk result (self.new ≡ listened self.old port) }
        ensures err { OnErr result ((self.new ≡ forgotten self.old) ⊎ ((self.new ≡ refused self.old port) × (Contains self.old.listens.failing self.old.listens.calls ⊎ (self.old.listening ≡ [])))) }
    {
        let fails = self.listens.call();
        if self.ports.push(port).is_err() || fails {
            return Err(self.refuse());
        }
        match self.listening.pop_front() {
            Some(
                Listening {
                    coming,
                    failing,
                    quiet,
                },
            ) => Ok(FailingListener::new(self.alloc, coming, failing, quiet)),
            None => Err(self.refuse()),
        }
    }

    fn shelf(&mut self) -> Result<FailingShelf, AllocError>
        ensures shelved { IfOk result (λ shelf. Some shelf.files ≡ Some self.old.files) }
        ensures none { IfOk result (λ shelf. shelf.reads.faults ≡ 0) }
        ensures ports { Some self.new.ports ≡ Some self.old.ports }
        ensures links { Some self.new.links ≡ Some self.old.links }
        ensures kept { self.new.kept ≡ self.old.kept }
        ensures given { self.new.given ≡ self.old.given }
        ensures kits { Some self.new.kits ≡ Some self.old.kits }
        ensures files { Some self.new.files ≡ Some self.old.files }
        ensures listens { self.new.listens.faults ≡ self.old.listens.faults }
        ensures shelves { self.new.read_faults ≡ self.old.read_faults }
        ensures ended { self.new.ended ≡ self.old.ended }
        ensures gives { IfOk result (λ shelf. shelf ≡ record { files = self.old.files; reads = uncalled self.old.failing_reads }) }
        ensures same { self.new ≡ self.old }
    {
        let files = self.files.copied(self.alloc)?;
        Ok(FailingShelf::new(files, self.failing_reads.clone()?))
    }

    fn kit(&mut self) -> Result<Kit<FailingDialer, KitClock>, AllocError>
        ensures talks { IfOk result (λ kit. IsNothingYet (Some kit.dialer.talks)) }
        ensures dials { IfOk result (λ kit. kit.dialer.dial_faults ≡ 0) }
        ensures reads { IfOk result (λ kit. kit.dialer.read_faults ≡ 0) }
        ensures writes { IfOk result (λ kit. kit.dialer.write_faults ≡ 0) }
        ensures readings { IfOk result (λ kit. IsUntold (Some kit.clock.readings)) }
        ensures words { IfOk result (λ kit. IsUntold (Some kit.clock.words)) }
        ensures ports { Some self.new.ports ≡ Some self.old.ports }
        ensures links { Some self.new.links ≡ Some self.old.links }
        ensures kept { self.new.kept ≡ self.old.kept }
        ensures given { self.new.given ≡ self.old.given }
        ensures kits { Some self.new.kits ≡ Some self.old.kits }
        ensures files { Some self.new.files ≡ Some self.old.files }
        ensures listens { self.new.listens.faults ≡ self.old.listens.faults }
        ensures shelves { self.new.read_faults ≡ self.old.read_faults }
        ensures ended { self.new.ended ≡ self.old.ended }
        ensures gives { IfOk result (λ kit. Some kit ≡ first_kit self.old.planned) }
        ensures wanting { OnErr result (self.old.planned ≡ []) }
        ensures next { self.new ≡ record self.old { planned = drop 1 self.old.planned } }
    {
        match self.planned.pop_front() {
            Some(planned) => Ok(planned.kit(self.alloc)),
            None => Err(AllocError),
        }
    }

    fn keep_link(&mut self, link: AcceptedLink)
        requires closed { link.is_open ≡ false }
        ensures link { Adds (Some self.old.links) (Some self.new.links) (link ∷ []) }
        ensures kept { self.new.kept ≡ next_count self.old.kept }
        ensures given { self.new.given ≡ self.old.given }
        ensures ports { Some self.new.ports ≡ Some self.old.ports }
        ensures kits { Some self.new.kits ≡ Some self.old.kits }
        ensures files { Some self.new.files ≡ Some self.old.files }
        ensures listens { self.new.listens.faults ≡ self.old.listens.faults }
        ensures shelves { self.new.read_faults ≡ self.old.read_faults }
        ensures ended { self.new.ended ≡ self.old.ended }
        ensures others { self.new ≡ record self.old { links = self.old.links ++ link ∷ []; kept = next_count self.old.kept } }
    {
        let (link, place) = link.apart();
        keep(&mut self.links, place, link);
        self.kept = self.kept.saturating_add(1);
    }

    fn keep_kit(&mut self, kit: Kit<FailingDialer, KitClock>)
        ensures kit { Adds (Some self.old.kits) (Some self.new.kits) (kit ∷ []) }
        ensures ports { Some self.new.ports ≡ Some self.old.ports }
        ensures links { Some self.new.links ≡ Some self.old.links }
        ensures kept { self.new.kept ≡ self.old.kept }
        ensures given { self.new.given ≡ self.old.given }
        ensures files { Some self.new.files ≡ Some self.old.files }
        ensures listens { self.new.listens.faults ≡ self.old.listens.faults }
        ensures shelves { self.new.read_faults ≡ self.old.read_faults }
        ensures ended { self.new.ended ≡ self.old.ended }
        ensures others { self.new ≡ record self.old { kits = self.old.kits ++ kit ∷ [] } }
    {
        let Kit { dialer, clock } = kit;
        let KitClock { clock, place } = clock;
        keep(&mut self.kits, place, Kit { dialer, clock });
    }

    fn retire(&mut self, listener: FailingListener)
        ensures listens { self.new.listens.faults ≡ joined_count self.old.listens.faults listener.accepts.faults }
        ensures later { self.old.listens.faults ≤ self.new.listens.faults }
        ensures given { self.new.given ≡ joined_count self.old.given listener.given }
        ensures gave_none { listener.given ≡ 0 → self.new.given ≡ self.old.given }
        ensures ended { self.new.ended ≡ (listener.ended || self.old.ended) }
        ensures ports { Some self.new.ports ≡ Some self.old.ports }
        ensures links { Some self.new.links ≡ Some self.old.links }
        ensures kept { self.new.kept ≡ self.old.kept }
        ensures kits { Some self.new.kits ≡ Some self.old.kits }
        ensures files { Some self.new.files ≡ Some self.old.files }
        ensures shelves { self.new.read_faults ≡ self.old.read_faults }
        ensures others { self.new ≡ retired self.old listener }
    {
        self.listens.join(listener.faults());
        self.given = self.given.saturating_add(listener.given());
        if listener.ended() {
            self.ended = true;
        }
    }

    fn retire_shelf(&mut self, shelf: FailingShelf)
        ensures shelves { self.new.read_faults ≡ joined_count self.old.read_faults shelf.reads.faults }
        ensures later { self.old.read_faults ≤ self.new.read_faults }
        ensures ports { Some self.new.ports ≡ Some self.old.ports }
        ensures links { Some self.new.links ≡ Some self.old.links }
        ensures kept { self.new.kept ≡ self.old.kept }
        ensures given { self.new.given ≡ self.old.given }
        ensures kits { Some self.new.kits ≡ Some self.old.kits }
        ensures files { Some self.new.files ≡ Some self.old.files }
        ensures listens { self.new.listens.faults ≡ self.old.listens.faults }
        ensures ended { self.new.ended ≡ self.old.ended }
        ensures others { self.new ≡ reshelved self.old shelf }
    {
        self.read_faults = self.read_faults.saturating_add(shelf.faults());
    }
}
