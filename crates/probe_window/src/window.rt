// The window of a probe.
ghost use Rattle.std.specs.Prelude.{◌≡◌, ◌≤◌, ◌+◌, ◌↔◌, ◌++◌, [], replicate, IfOk, IsTrue};
ghost use Rattle.arrayvec.specs.ArrayVec.{array_vec_len};
ghost use Rattle.probe_window.specs.Windows.{counted, is_healthy, is_out_of_range, window_of, with_result};

use arrayvec::ArrayVec;
use std::alloc::{AllocError, AllocFailed};
use std::marker::Model;

/// The most results that a window has.
const LONGEST: u32 = 64;

/// Why there is no window, or no board.
#[derive(Debug, Drop)]
pub enum WindowError {
    /// A window of no result or of more than 64, or more good results than a window has.
    Range,
    NoMemory,
}

impl From<AllocError> for WindowError {
    ghost use Rattle.probe_window.specs.declared.window.WindowError.{WindowError};

    ghost from_gives = { λ _ error. error ≡ WindowError.NoMemory };

    fn from(_error: AllocError) -> WindowError {
        WindowError::NoMemory
    }
}

impl<T: Drop> From<AllocFailed<T>> for WindowError {
    ghost use Rattle.probe_window.specs.declared.window.WindowError.{WindowError};

    ghost from_gives = { λ _ error. error ≡ WindowError.NoMemory };

    fn from(_error: AllocFailed<T>) -> WindowError {
        WindowError::NoMemory
    }
}

/// The latest results of a probe. Clauses see those that count, the oldest first, and how many of them are to be good.
#[derive(Drop)]
pub struct Window {
    threshold: u32,
    results: ArrayVec<bool, 64>,
}

impl Model for Window {
    ghost use Rattle.std.specs.Prelude.{◌<◌, ◌≤◌};
    ghost use Rattle.arrayvec.specs.ArrayVec.{array_vec_len};
    ghost use Rattle.probe_window.specs.Windows.{Counted, counted};

    ghost Value = { Counted };

    ghost view = { λ window. counted window.threshold window.results.items };

    ghost invariant = { λ window. (0 < array_vec_len window.results) × (array_vec_len window.results ≤ 64) };
}

impl Window {
    /// A window of so many results, of which so many are to be good: it begins with so many good ones behind bad ones.
    pub fn of(window: u32, threshold: u32, initial: u32) -> Result<Window, WindowError>
        ensures range { (result ≡ Err WindowError.Range) ↔ IsTrue (is_out_of_range window threshold initial) }
        ensures memory { result ≡ Err WindowError.NoMemory → ⊥ }
        ensures ok { IfOk result (λ made. made ≡ counted threshold (window_of window initial [])) }
    {
        if window == 0 || window > LONGEST || threshold > window || initial > window {
            return Err(WindowError::Range);
        }
        let mut results = ArrayVec::new();
        fill(&mut results, window - initial, false);
        fill(&mut results, initial, true);
        Ok(Window { threshold, results })
    }

    /// Counts a result, and no more the oldest one.
    pub fn push(&mut self, good: bool)
        ensures { self.new ≡ with_result self.old good }
    {
        self.results.remove(0);
        self.results.push(good);
    }

    /// Whether enough of the results are good.
    pub fn healthy(&self) -> bool
        ensures { result ≡ is_healthy self.now }
    {
        let good = self.results.iter().filter(|good| **good).count();
        good >= self.threshold as usize
    }
}

// Puts a result so many times behind the others.
fn fill(results: &mut ArrayVec<bool, 64>, times: u32, good: bool)
    requires { array_vec_len results.old + times ≤ 64 }
    ensures filled { results.new.items ≡ results.old.items ++ replicate times good }
    ensures long { array_vec_len results.new ≡ array_vec_len results.old + times }
{
    for filled in 0..times {
        results.push(good);
    }
}
