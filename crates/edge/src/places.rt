// The places of the loop's connections.

use crate::client::Client;
use std::alloc::{AllocError, Global};

/// What is done with a connection.
#[derive(Clone, Copy, Debug, PartialEq, Eq)]
pub(crate) enum Phase {
    /// There is none at the place.
    Free,
    /// Its next request is gathered.
    Gathering,
    /// A worker has it.
    Away,
    /// The client has yet to take what was sent.
    Taking,
    /// No more is sent, and what still comes is read and thrown away.
    Closing,
}

/// A place for a connection.
#[derive(Drop)]
pub(crate) struct Place {
    pub phase: Phase,
    /// None where it is free, or a worker has the connection.
    pub client: Option<Box<Client>>,
    /// How many bytes were thrown away, or waited when the time for taking them began.
    pub mark: u64,
    /// Whether further requests may come once the client has taken all.
    pub goes_on: bool,
}

/// All places. A place's number stays the connection's own until it is freed.
#[derive(Drop)]
pub(crate) struct Places {
    all: Vec<Place>,
    free: Vec<usize>,
    /// How many aren't free.
    pub taken: u64,
    /// Of how many workers have the connection.
    away: u64,
}

impl Places {
    pub fn new(alloc: Global) -> Places {
        Places {
            all: Vec::new(alloc),
            free: Vec::new(alloc),
            taken: 0,
            away: 0,
        }
    }

    /// How many there are, free ones among them.
    pub fn len(&self) -> usize {
        self.all.len()
    }

    pub fn get(&mut self, index: usize) -> Option<&mut Place> {
        self.all.get_mut(index)
    }

    pub fn phase(&self, index: usize) -> Phase {
        match self.all.get(index) {
            Some(place) => place.phase,
            None => Phase::Free,
        }
    }

    /// A free place's number. It stays free until something is put there.
    pub fn free_place(&mut self) -> Result<usize, AllocError> {
        if let Some(index) = self.free.last() {
            return Ok(*index);
        }
        self.free.reserve(self.all.len().saturating_add(1))?;
        let index = self.all.len();
        self.all.push(Place {
            phase: Phase::Free,
            client: None,
            mark: 0,
            goes_on: false,
        })?;
        self.free.push(index)?;
        Ok(index)
    }

    /// Puts a connection at the place that was free last.
    pub fn fill(&mut self, client: Box<Client>) {
        if let Some(index) = self.free.pop() {
            if let Some(place) = self.all.get_mut(index) {
                place.phase = Phase::Gathering;
                place.client = Some(client);
                place.mark = 0;
                self.taken = self.taken.saturating_add(1);
            }
        }
    }

    /// Says that a worker has the connection of a place.
    pub fn set_away(&mut self, index: usize) {
        if let Some(place) = self.all.get_mut(index) {
            if place.phase != Phase::Away {
                place.phase = Phase::Away;
                self.away = self.away.saturating_add(1);
            }
        }
    }

    /// Puts a connection back that a worker had; further requests may come over it or not.
    pub fn put_back(&mut self, index: usize, client: Box<Client>, goes_on: bool) {
        if let Some(place) = self.all.get_mut(index) {
            if place.phase == Phase::Away {
                place.phase = Phase::Gathering;
                place.client = Some(client);
                place.goes_on = goes_on;
                self.away = self.away.saturating_sub(1);
            }
        }
    }

    /// Whether workers have all connections that there are.
    pub fn are_left(&self) -> bool {
        self.taken <= self.away
    }

    /// Frees a place, and ends its connection.
    pub fn release(&mut self, index: usize) {
        if let Some(place) = self.all.get_mut(index) {
            if place.phase == Phase::Away {
                self.away = self.away.saturating_sub(1);
            }
            if place.phase != Phase::Free {
                place.phase = Phase::Free;
                place.client = None;
                self.taken = self.taken.saturating_sub(1);
                let _ = self.free.push(index);
            }
        }
    }
}
