// Where objects count, from one call to the next.
ghost use Rattle.std.specs.Prelude.{◌≡◌, ◌<◌, ◌≤◌, ◌∷◌, ◌++◌, [], ℕ, List, length};
ghost use Rattle.std.specs.List.{AllByRecursion};
ghost use Rattle.cache_law.specs.declared.ban.Ban.{Ban};
ghost use Rattle.ban_list.specs.declared.list.Stand.{Stand};
ghost use Rattle.ban_list.specs.Bans.{Bans, cut_to, departed, entered, no_bans, only_needed, standing, with_ban};
ghost use Rattle.ban_list.specs.Kept.{AreFalling};
ghost use Rattle.ban_list.specs.Stands.{AreAt};

/// Whoever knows where objects stand knows all counts of a list of bans, and what they become: an object that is entered
/// stands among them, and one that departs may do so and doesn't any more; and where bans come that are above all places
/// and marks, or go, the counts are those of the same objects.
pub fn counts_are_of_objects()
    ensures none { AreAt no_bans [] }
    ensures issued { (number moment : ℕ) (ban : Ban) (bans : Bans) (stands : List Stand)
        → AllByRecursion (λ stand. (stand.place < number) × (stand.mark < number)) stands → AreAt bans stands
        → AreAt (with_ban number moment ban bans) stands }
    ensures comes { (stand : Stand) (bans : Bans) (stands : List Stand) → AreAt bans stands
        → AreAt (entered stand.place stand.mark bans) (stand ∷ stands) }
    ensures may_go { (stand : Stand) (bans : Bans) (others more : List Stand) → AreAt bans (others ++ stand ∷ more)
        → (0 < standing stand.place bans.lines bans.placed) × (0 < standing stand.mark bans.lines bans.marked) }
    ensures goes { (stand : Stand) (bans : Bans) (others more : List Stand) → AreAt bans (others ++ stand ∷ more)
        → AreAt (departed stand.place stand.mark bans) (others ++ more) }
    ensures cut { (bound left : ℕ) (bans : Bans) (stands : List Stand) → AreFalling bound bans.lines → left ≤ length bans.lines
        → AreAt bans stands → AreAt (cut_to left bans) stands }
    ensures kept { (bound : ℕ) (bans : Bans) (stands : List Stand) → AreFalling bound bans.lines → AreAt bans stands
        → AreAt (only_needed bans) stands }
{}
