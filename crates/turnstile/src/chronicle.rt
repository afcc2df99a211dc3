// What a value offers that a lock may hold.
ghost use Rattle.std.specs.Prelude.{◌≡◌, ℕ, Bool, List};

/// A value that keeps a history of what was done with it.
pub trait Chronicle: Sized {
    /// What one call leaves in the history.
    type Entry;

    /// What is fixed for the value's life, as its limits.
    type Setting;

    /// The number of the one whose entry it is.
    ghost caller: { Self.Entry → ℕ };

    /// The entries so far, in order.
    ghost history: { Self → List Self.Entry };

    /// No turn changes it.
    ghost setting: { Self → Self.Setting };

    /// What is true of the value whenever nobody has a turn.
    ghost Sound: { Self → Type 0 };

    /// Whether nobody works on what the token stands for any more, as the setting and the history tell.
    ghost closed: { Self.Setting → ℕ → List Self.Entry → Bool };

    /// Whether the token is closed.
    fn is_closed(&self, token: u64) -> bool
        ensures { result ≡ closed (setting self.now) token (history self.now) };
}
