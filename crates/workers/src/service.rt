// What workers do with connections.
ghost use Rattle.std.specs.Prelude.{◌≡◌, List, [], OnOk};
ghost use Rattle.entrance.specs.Arriving.{IsNew};
ghost use Rattle.wire.specs.Telling.{LinkTold, told_by};
ghost use Rattle.workers.specs.Serving.{IsTold};

use crate::post::Post;
use std::alloc::AllocError;
use std::sync::Wait;
use wire::Link;

/// What workers do with each connection. They share it and a site, as a cache, by reference, and each has a post of its own.
pub trait Service<L: Link, P> {
    /// What a worker serves connections with.
    type Shift: Drop + Send;

    /// Whom a worker tells of them.
    type Keeper: Drop + Send;

    /// What a keeper is told.
    type Event;

    /// At this site a connection may be served with this shift.
    ghost Ready: { Self → P → Self.Shift → Type 0 };

    /// The keeper has room for what is told of a connection at least.
    ghost HasRoom: { Self.Keeper → Type 0 };

    /// These are all the events that the keeper was told, in their order.
    ghost Told: { Self.Keeper → List Self.Event → Type 0 };

    /// At this site a connection was served, from one shift to the next, and from what was told of it when it was new; these are its
    /// events.
    ghost Serves: { Self → P → Self.Shift → Self.Shift → LinkTold → List Self.Event → Type 0 };

    /// Makes room for another connection.
    fn make_room(&self, keeper: &mut Self::Keeper) -> Result<(), AllocError>
        ensures told { IsTold Told keeper.old keeper.new [] }
        ensures room { OnOk result (HasRoom keeper.new) };

    /// Serves a connection that was just accepted from this address, and tells the keeper of it.
    fn serve<R: Wait>(
        &self,
        rt: &R,
        site: &P,
        post: Post<Self::Shift, Self::Keeper>,
        link: L,
        address: [u8; 4],
    ) -> Post<Self::Shift, Self::Keeper>
        requires ready { Ready self.now site.now post.shift }
        requires room { HasRoom post.keeper }
        requires new { IsNew (told_by L.flow L.read_faults L.write_faults L.peer L.is_open link) address }
        ensures ready { Ready self.now site.now result.shift }
        ensures serves { (events : List Self.Event) × IsTold Told post.keeper result.keeper events
            × Serves self.now site.now post.shift result.shift (told_by L.flow L.read_faults L.write_faults L.peer L.is_open link) events };
}
