// Dialers of who dials nobody.
ghost use Rattle.std.specs.Prelude.{◌≡◌, None};

use crate::ConsoleLink;
use edge::Outside;
use std::marker::PhantomData;
use units::Text;
use wire::{DialError, DialLimits, Dialer};

/// A dialer by which nobody is reached: each dial fails.
#[derive(Drop)]
pub struct NoDialer<R: Outside> {
    pub dial_faults: u64,
    pub read_faults: u64,
    pub write_faults: u64,
    links: PhantomData<R>,
}

impl<R: Outside> NoDialer<R> {
    pub(crate) fn new() -> NoDialer<R>
        ensures dials { result.dial_faults ≡ 0 }
        ensures reads { result.read_faults ≡ 0 }
        ensures writes { result.write_faults ≡ 0 }
    {
        NoDialer {
            dial_faults: 0,
            read_faults: 0,
            write_faults: 0,
            links: PhantomData,
        }
    }
}

impl<R: Outside> Dialer for NoDialer<R> {
    type Link = ConsoleLink<R>;

    ghost talks = { λ _. None };

    ghost dial_faults = { λ d. d.dial_faults };

    ghost read_faults = { λ d. d.read_faults };

    ghost write_faults = { λ d. d.write_faults };

    fn within(&mut self, _limits: DialLimits) {}

    fn dial(&mut self, _host: &Text, _port: &Text) -> Result<ConsoleLink<R>, DialError> {
        self.dial_faults = self.dial_faults.saturating_add(1);
        Err(DialError::Failed)
    }

    fn hang_up(&mut self, link: ConsoleLink<R>) {
        if link.read_faults > 0 {
            self.read_faults = self.read_faults.saturating_add(1);
        }
        if link.write_faults > 0 {
            self.write_faults = self.write_faults.saturating_add(1);
        }
    }
}
