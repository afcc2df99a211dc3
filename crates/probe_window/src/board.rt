// The windows of all probed backends.
ghost use Rattle.std.specs.Prelude.{◌≡◌, false, Some, IfOk, IsErrOf, IsTrue, OnErr, OnOk, map, position};
ghost use Rattle.std.specs.List.{list_any};
ghost use Rattle.probe_window.specs.Boards.{begun, changed, forces, freed, freed_health, has_no_window, health_in, is_named, news, news_of, other_than, with_forced, with_good};

use crate::{Window, WindowError};
use std::alloc::Global;
use std::marker::Model;
use units::Text;
use vcl_attributes::Probe;

/// A probed backend: its name, its window, and whether its health is forced.
#[derive(Drop)]
pub struct Watched {
    pub backend: Text,
    pub window: Window,
    pub forced: bool,
}

impl Watched {
    // Counts a result: the new health where that is another one and the backend isn't forced.
    fn count(&mut self, good: bool) -> Option<bool>
        ensures watched { self.new ≡ with_good good self.old }
        ensures news { result ≡ news_of good self.old }
    {
        let before = self.window.healthy();
        self.window.push(good);
        let after = self.window.healthy();
        if self.forced {
            None
        } else {
            other_than(before, after)
        }
    }

    // Forces it, or frees it: then the window's health is given.
    fn set_forced(&mut self, forced: bool) -> Option<bool>
        ensures watched { self.new ≡ with_forced (Some forced) self.old }
        ensures health { result ≡ freed_health (Some forced) self.old }
    {
        self.forced = forced;
        if forced {
            None
        } else {
            Some(self.window.healthy())
        }
    }
}

/// The probed backends of a VCL. Clauses see their list, in the order of their probes.
#[derive(Drop)]
pub struct Board {
    watched: Vec<Watched>,
}

impl Model for Board {
    ghost use Rattle.std.specs.Prelude.{List};
    ghost use Rattle.probe_window.specs.declared.board.Watched.{Watched};

    ghost Value = { List Watched };

    ghost view = { λ board. board.watched.items };
}

impl Board {
    /// A window for each of these probes, none of them forced. Range where one of them has numbers that no window has.
    pub fn of(alloc: Global, probes: &[Probe]) -> Result<Board, WindowError>
        ensures ok { IfOk result (λ board. board ≡ map begun probes.now) }
        ensures fit { OnOk result (list_any has_no_window probes.now ≡ false) }
        ensures range { IsErrOf result WindowError.Range → IsTrue (list_any has_no_window probes.now) }
    {
        let mut watched = Vec::new(alloc);
        for probe in probes {
            watched.push(begun(probe)?)?;
        }
        Ok(Board { watched })
    }

    /// Begins anew with these probes, as after a switch: no result that came before counts, and no backend is forced. After an error
    /// the board is as before.
    pub fn begin_again(&mut self, alloc: Global, probes: &[Probe]) -> Result<(), WindowError>
        ensures ok { OnOk result (self.new ≡ map begun probes.now) }
        ensures fit { OnOk result (list_any has_no_window probes.now ≡ false) }
        ensures range { IsErrOf result WindowError.Range → IsTrue (list_any has_no_window probes.now) }
        ensures err { OnErr result (self.new ≡ self.old) }
    {
        let board = Board::of(alloc, probes)?;
        *self = board;
        Ok(())
    }

    /// Counts a result of a backend: its new health where that is another one and the backend isn't forced.
    pub fn result(&mut self, backend: &[u8], good: bool) -> Option<bool>
        ensures board { self.new ≡ changed (with_good good) backend.now self.old }
        ensures news { result ≡ news good backend.now self.old }
    {
        match self.place_of(backend) {
            Some(place) => self.watched[place].count(good),
            None => None,
        }
    }

    /// Forces a backend that is set to `healthy` or `sick`; frees one that is set to `auto`, whose window's health it gives then.
    /// Another word changes nothing.
    pub fn force(&mut self, backend: &[u8], state: &[u8]) -> Option<bool>
        ensures board { self.new ≡ changed (with_forced (forces state.now)) backend.now self.old }
        ensures health { result ≡ freed (forces state.now) backend.now self.old }
    {
        match forces(state) {
            Some(forced) => self.set(backend, forced),
            None => None,
        }
    }

    fn set(&mut self, backend: &[u8], forced: bool) -> Option<bool>
        ensures board { self.new ≡ changed (with_forced (Some forced)) backend.now self.old }
        ensures health { result ≡ freed (Some forced) backend.now self.old }
    {
        match self.place_of(backend) {
            Some(place) => self.watched[place].set_forced(forced),
            None => None,
        }
    }

    /// The health of a backend's window; None exactly where the backend isn't probed.
    pub fn health(&self, backend: &[u8]) -> Option<bool>
        ensures { result ≡ health_in backend.now self.now }
    {
        match self.place_of(backend) {
            Some(place) => Some(self.watched[place].window.healthy()),
            None => None,
        }
    }

    fn place_of(&self, backend: &[u8]) -> Option<usize>
        ensures { result ≡ position (is_named backend.now) self.now }
    {
        self.watched
            .iter()
            .position(|watched| watched.backend.bytes() == backend)
    }
}

// What is watched of a backend with this probe at first.
fn begun(probe: &Probe) -> Result<Watched, WindowError>
    ensures ok { IfOk result (λ watched. watched ≡ begun probe.now) }
    ensures fit { OnOk result (has_no_window probe.now ≡ false) }
    ensures range { IsErrOf result WindowError.Range → IsTrue (has_no_window probe.now) }
{
    let window = Window::of(probe.window, probe.threshold, probe.initial)?;
    Ok(Watched {
        backend: probe.backend.copy()?,
        window,
        forced: false,
    })
}

// The health after a result, where it is another one than before.
fn other_than(before: bool, after: bool) -> Option<bool>
    ensures { result ≡ other_than before after }
{
    match (before, after) {
        (true, false) => Some(false),
        (false, true) => Some(true),
        (true, true) | (false, false) => None,
    }
}

fn forces(state: &[u8]) -> Option<bool>
    ensures { result ≡ forces state.now }
{
    if state == b"auto".as_slice() {
        Some(false)
    } else if state == b"healthy".as_slice() || state == b"sick".as_slice() {
        Some(true)
    } else {
        None
    }
}
