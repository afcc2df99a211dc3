// A shelf that tells what a list of bans would show.
ghost use Rattle.std.specs.Prelude.{◌↔◌, IsTrue};
ghost use Rattle.cache_law.specs.ShownBans.{AllShown, those_open};
ghost use Rattle.cache_frame.specs.Shelves.{Tells};

use crate::shelf::Shelf;
use cache_law::BanLine;

/// A shelf that tells of a list of bans whether it shows those that are still needed.
pub trait ListingShelf: Shelf {
    /// Whether the lines that aren't marked as completed show each ban that an object in time has still to be tested on. It takes no
    /// memory.
    fn shows(&self, moment: u64, lines: &[BanLine]) -> bool
        ensures { Tells Self.Stands self.now moment (λ state. IsTrue result ↔ AllShown (those_open lines.now) state.objects) };
}
