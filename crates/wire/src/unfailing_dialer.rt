// A dialer in memory whose dials never fail.
ghost use Rattle.std.specs.Prelude.{◌≡◌, true, false, None, Some, IfOk, IfErr, MatchOption};
ghost use Rattle.wire.specs.UnfailingMemory.{GivesUnfailing};
ghost use Rattle.wire.specs.declared.peer.Peer.{Peer as End};

use crate::{DialError, DialLimits, Dialer, Peer, UnfailingLink};
use std::alloc::Global;
use std::collections::VecDeque;
use std::marker::Model;
use units::Text;

/// A dialer over connections in memory whose dials fail for want of memory alone. It tells generic code nothing of its talks,
/// and keeps the connection that was handed back last.
#[derive(Drop)]
pub struct UnfailingDialer {
    alloc: Global,
    planned: VecDeque<Vec<u8>>,
    room: usize,
    latest: Option<UnfailingLink>,
}

impl Model for UnfailingDialer {
    ghost use Rattle.wire.specs.UnfailingMemory.{UnfailingDialerState};

    ghost Value = { UnfailingDialerState };

    ghost view = { λ d. record { planned = d.planned.items; room = d.room; latest = d.latest } };
}

impl UnfailingDialer {
    /// A dialer on whose connections these bytes come, one behind another, and nothing behind the last. Each has room for so
    /// many bytes.
    pub fn new(alloc: Global, planned: VecDeque<Vec<u8>>, room: usize) -> UnfailingDialer
        ensures { result ≡ record { planned = planned.items; room = room; latest = None } }
    {
        UnfailingDialer {
            alloc,
            planned,
            room,
            latest: None,
        }
    }

    /// The connection that was handed back last.
    pub fn latest(&self) -> Option<&UnfailingLink>
        ensures { MatchOption result (self.now.latest ≡ None) (λ link. self.now.latest ≡ Some link.now) }
    {
        self.latest.as_ref()
    }
}

impl Dialer for UnfailingDialer {
    type Link = UnfailingLink;

    ghost talks = { λ _. None };

    ghost dial_faults = { λ _. 0 };

    ghost read_faults = { λ _. 0 };

    ghost write_faults = { λ _. 0 };

    fn within(&mut self, _limits: DialLimits)
        ensures same { self.new ≡ self.old }
    {}

    fn dial(&mut self, host: &Text, port: &Text) -> Result<UnfailingLink, DialError>
        ensures peer { IfOk result (λ link. link.peer ≡ End.Dialed host.now port.now) }
        ensures is_open { IfOk result (λ link. link.is_open ≡ true) }
        ensures memory { IfErr result (λ error. error ≡ DialError.NoMemory) }
        ensures gives { IfOk result (λ link. GivesUnfailing self.old self.new (End.Dialed host.now port.now) link) }
    {
        let peer = Peer::Dialed {
            host: host.copy()?,
            port: port.copy()?,
        };
        let input = match self.planned.pop_front() {
            Some(input) => input,
            None => Vec::new(self.alloc),
        };
        Ok(UnfailingLink::with_room(self.alloc, input, self.room, peer)?)
    }

    fn hang_up(&mut self, link: UnfailingLink)
        requires closed { link.is_open ≡ false }
        ensures latest { self.new ≡ record self.old { latest = Some link } }
    {
        self.latest = Some(link);
    }
}
