// How many have to go is one number.
ghost use Rattle.std.specs.Prelude.{◌≡◌, ◌≤◌, ℕ, List};
ghost use Rattle.room_lru.specs.Room.{MakesRoom};

/// At most one number of the first of some sizes makes room for a new one, and where the room holds the new one, one
/// does.
pub fn one_count_makes_room()
    ensures only { (room size : ℕ) (sizes : List ℕ) (one other : ℕ) → MakesRoom room size sizes one → MakesRoom room size sizes other → one ≡ other }
    ensures there { (room size : ℕ) (sizes : List ℕ) → size ≤ room → (count : ℕ) × MakesRoom room size sizes count }
{}
