// What a window is after all results that it was told.
ghost use Rattle.std.specs.Prelude.{◌≡◌, ◌≤◌, [], List, ℕ, Bool, fold};
ghost use Rattle.probe_window.specs.Windows.{counted, window_of, with_result};

/// A window that was begun and then told results, one after another, counts the last ones of those that it began with and of
/// them.
pub fn window_of_all()
    ensures { (window threshold initial : ℕ) (results : List Bool) → initial ≤ window → fold with_result (counted threshold (window_of window initial [])) results ≡ counted threshold (window_of window initial results) }
{}
