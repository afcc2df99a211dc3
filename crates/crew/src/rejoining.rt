// Passes that are joined again, and kits and keepers that are handed back.
ghost use Rattle.std.specs.Prelude.{◌≡◌, ◌+◌, ◌≤◌, ◌++◌, List, [], All, map, vec_len, vec_capacity};
ghost use Rattle.cache_law.specs.declared.call.Entry.{Entry as HistoryEntry};
ghost use Rattle.wire.specs.Talks.{Adds};
ghost use Rattle.turnstile.specs.Handles.{known};
ghost use Rattle.turnstile.specs.Knowledge.{mine};
ghost use Rattle.shared_cache.specs.Passes.{IsPassOf};
ghost use Rattle.shared_cache.specs.Sharing.{caller_of};
ghost use Rattle.crew.specs.Hiring.{AllFronts, ended_of};

use crate::hiring::LinkOf;
use crate::host::Host;
use cache_law::CacheCore;
use shared_cache::{CachePass, SharedCache};
use workers::Post;
use world::World;

/// Joins the passes of posts into the first one, in their order, hands their kits back to the world, and puts their keepers behind
/// the others. It takes no memory.
pub(crate) fn rejoin<W: World, C: CacheCore, H: Host<C, W::Dialer, W::Clock, LinkOf<W>>>(
    world: &mut W,
    host: &H,
    cache: &SharedCache<C>,
    root: &mut CachePass,
    posts: Vec<Post<H::Shift, H::Keeper>>,
    keepers: &mut Vec<H::Keeper>,
)
    requires pass { IsPassOf cache.now root.old }
    requires passes { All (λ post. IsPassOf cache.now (H.pass_of post.shift)) posts.items }
    requires leaves { All (λ post. ((known (H.pass_of post.shift)).made ≡ []) × ((known (H.pass_of post.shift)).ended ≡ [])) posts.items }
    requires seats { vec_len keepers.old + vec_len posts ≤ vec_capacity keepers.old }
    ensures pass { IsPassOf cache.now root.new }
    ensures keepers { keepers.new.items ≡ keepers.old.items ++ map (λ post. post.keeper) posts.items }
    ensures fronts { AllFronts (known root.new).seen (map (λ post. known (H.pass_of post.shift)) posts.items) }
    ensures known { known root.new ≡ record (known root.old) { seen = (known root.new).seen; ended = (known root.old).ended ++ map (λ post. ended_of (known (H.pass_of post.shift))) posts.items } }
    ensures mine { mine caller_of (known root.new) ≡ mine caller_of (known root.old) }
    ensures grown { (rest : List HistoryEntry) × ((known root.new).seen ≡ (known root.old).seen ++ rest) }
    ensures kits { Adds (W.kits world.old) (W.kits world.new) (map (λ post. H.kit_of post.shift) posts.items) }
    ensures links { W.links world.new ≡ W.links world.old }
    ensures kept { W.kept world.new ≡ W.kept world.old }
    ensures given { W.given world.new ≡ W.given world.old }
    ensures ports { W.ports world.new ≡ W.ports world.old }
    ensures files { W.files world.new ≡ W.files world.old }
    ensures listens { W.listen_faults world.new ≡ W.listen_faults world.old }
    ensures shelves { W.shelf_faults world.new ≡ W.shelf_faults world.old }
    ensures ended { W.ended world.new ≡ W.ended world.old }
{
    for post in posts {
        let Post { shift, keeper } = post;
        let (pass, kit) = host.end_shift(shift);
        cache.join(root, pass);
        world.keep_kit(kit);
        keepers.push_reserved(keeper);
    }
}
