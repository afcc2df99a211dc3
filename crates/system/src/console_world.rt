// The outside of a console.
ghost use Rattle.std.specs.Prelude.{◌≡◌, false, IfOk};

use crate::no_dialer::NoDialer;
use crate::{ConsoleLink, ConsoleListener, EndSign, SystemClock, SystemShelf};
use edge::{Outside, tell};
use std::alloc::{AllocError, Global};
use std::rt::Files;
use std::sync::Arc;
use wire::Failed;
use world::{Kit, World};

/// The system's outside, as a console has it: it listens at the machine's own address alone, and tells nothing but its counts.
#[derive(Drop)]
pub struct ConsoleWorld<R: Drop> {
    pub rt: R,
    pub kept: u64,
    pub given: u64,
    pub listen_faults: u64,
    pub shelf_faults: u64,
    /// Whether a listener that was handed back said its end.
    pub has_ended: bool,
    /// What tells its listener and its connections that the run is over.
    sign: Arc<EndSign, Global>,
}

impl<R: Outside> ConsoleWorld<R> {
    /// A world whose listeners end once the sign is raised.
    pub fn new(rt: R, sign: Arc<EndSign, Global>) -> ConsoleWorld<R>
        ensures kept { result.kept ≡ 0 }
        ensures given { result.given ≡ 0 }
        ensures listens { result.listen_faults ≡ 0 }
        ensures shelves { result.shelf_faults ≡ 0 }
        ensures ended { result.has_ended ≡ false }
    {
        ConsoleWorld {
            rt,
            kept: 0,
            given: 0,
            listen_faults: 0,
            shelf_faults: 0,
            has_ended: false,
            sign,
        }
    }

    // Says where the console is.
    fn tell_port(&self, port: u16) -> Result<(), AllocError> {
        let line = format!(in self.rt.alloc(); "console at 127.0.0.1:{port}")?;
        tell(&self.rt, line.as_str());
        Ok(())
    }

    fn listener_at(&self, port: u16) -> Result<ConsoleListener<R>, Failed>
        ensures given { IfOk result (λ listener. listener.given ≡ 0) }
        ensures faults { IfOk result (λ listener. listener.faults ≡ 0) }
        ensures going { IfOk result (λ listener. listener.has_ended ≡ false) }
    {
        let sign = Arc::try_clone(&self.sign).map_err(|_| Failed)?;
        let listener = ConsoleListener::at(self.rt, port, sign).map_err(|_| Failed)?;
        self.tell_port(port).map_err(|_| Failed)?;
        Ok(listener)
    }
}

impl<R: Outside + Files + Send> World for ConsoleWorld<R> {
    type Listener = ConsoleListener<R>;

    type Dialer = NoDialer<R>;

    type Clock = SystemClock<R>;

    type Shelf = SystemShelf<R>;

    ghost use Rattle.std.specs.Prelude.{None};

    ghost ports = { λ _. None };

    ghost links = { λ _. None };

    ghost kept = { λ w. w.kept };

    ghost given = { λ w. w.given };

    ghost kits = { λ _. None };

    ghost files = { λ _. None };

    ghost listen_faults = { λ w. w.listen_faults };

    ghost shelf_faults = { λ w. w.shelf_faults };

    ghost ended = { λ w. w.has_ended };

    fn listen(&mut self, port: u16) -> Result<ConsoleListener<R>, Failed> {
        match self.listener_at(port) {
            Ok(listener) => Ok(listener),
            Err(_) => {
                self.listen_faults = self.listen_faults.saturating_add(1);
                Err(Failed)
            }
        }
    }

    fn shelf(&mut self) -> Result<SystemShelf<R>, AllocError> {
        Ok(SystemShelf::new(self.rt))
    }

    fn kit(&mut self) -> Result<Kit<NoDialer<R>, SystemClock<R>>, AllocError> {
        Ok(Kit {
            dialer: NoDialer::new(),
            clock: SystemClock::new(self.rt),
        })
    }

    fn keep_link(&mut self, _link: ConsoleLink<R>) {
        self.kept = self.kept.saturating_add(1);
    }

    fn keep_kit(&mut self, _kit: Kit<NoDialer<R>, SystemClock<R>>)
        ensures kept { self.new.kept ≡ self.old.kept }
        ensures given { self.new.given ≡ self.old.given }
        ensures listens { self.new.listen_faults ≡ self.old.listen_faults }
        ensures shelves { self.new.shelf_faults ≡ self.old.shelf_faults }
        ensures same { self.new ≡ self.old }
    {}

    /// The port is closed.
    fn retire(&mut self, listener: ConsoleListener<R>) {
        self.listen_faults = self.listen_faults.saturating_add(listener.faults);
        self.given = self.given.saturating_add(listener.given);
        self.has_ended = listener.has_ended || self.has_ended;
    }

    fn retire_shelf(&mut self, shelf: SystemShelf<R>) {
        self.shelf_faults = self.shelf_faults.saturating_add(shelf.faults);
    }
}
