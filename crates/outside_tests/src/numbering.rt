// A service that writes the number of each connection on it.
ghost use Rattle.std.specs.Prelude.{◌≡◌, ◌<◌, List, vec_len, vec_capacity};
ghost use Rattle.outside_tests.specs.declared.numbering.Numbered.{Numbered as One};
ghost use Rattle.workers.specs.Serving.{IsTold};

use std::alloc::AllocError;
use std::sync::Wait;
use wire::Link;
use workers::{Post, Service};

/// Writes a connection's number, the last part of its address, on it; a shift counts its connections, and a keeper keeps what is told
/// of them.
#[derive(Drop)]
pub struct Numbering;

/// The number of a connection, and how many were served before it.
#[derive(Debug, Drop)]
pub struct Told {
    pub number: u8,
    pub before: u64,
}

/// A connection that was served: its link, and what is told of it.
#[derive(Drop)]
pub struct Numbered<L> {
    pub link: L,
    pub told: Told,
}

impl<L: Link + Send> Service<L, ()> for Numbering {
    type Shift = u64;

    type Keeper = Vec<Numbered<L>>;

    type Event = Numbered<L>;

    ghost Ready = { λ _ _ _. Unit {0} };

    ghost HasRoom = { λ kept. vec_len kept < vec_capacity kept };

    ghost Told = { λ kept events. kept.items ≡ events };

    ghost Serves = { λ _ _ _ _ _ _. Unit {0} };

    fn make_room(&self, kept: &mut Vec<Numbered<L>>) -> Result<(), AllocError> {
        kept.reserve(1)
    }

    fn serve<R: Wait>(
        &self,
        _rt: &R,
        _site: &(),
        post: Post<u64, Vec<Numbered<L>>>,
        link: L,
        address: [u8; 4],
    ) -> Post<u64, Vec<Numbered<L>>>
        requires room { vec_len post.keeper < vec_capacity post.keeper }
        ensures serves { (events : List (One L)) × IsTold (λ kept told. kept.items ≡ told) post.keeper result.keeper events × Unit {0} }
    {
        let Post { shift, mut keeper } = post;
        let (mut link, number) = (link, address[3]);
        let _ = link.write(&[number]);
        link.shut();
        let told = Told {
            number,
            before: shift,
        };
        keeper.push_reserved(Numbered { link, told });
        Post {
            shift: shift.saturating_add(1),
            keeper,
        }
    }
}
