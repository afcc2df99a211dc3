// Why reading stops.
ghost use Rattle.vcl_parse.specs.declared.stop.Stop.TheVariants.{NoMemory};
ghost use Rattle.std.specs.Prelude.{◌≡◌};

use std::alloc::{AllocError, AllocFailed};

/// Why reading stops: at how many tokens before the end, the token itself counted.
#[derive(Clone, Copy)]
pub enum Stop {
    NoMemory,
    /// No text goes on with this token.
    Syntax(usize),
    /// Blocks and parentheses would nest too deep.
    TooDeep(usize),
}

impl From<AllocError> for Stop {
    ghost from_gives = { λ _ e. e ≡ NoMemory };

    fn from(_e: AllocError) -> Stop {
        Stop::NoMemory
    }
}

impl<T: Drop> From<AllocFailed<T>> for Stop {
    ghost from_gives = { λ _ e. e ≡ NoMemory };

    fn from(_e: AllocFailed<T>) -> Stop {
        Stop::NoMemory
    }
}

/// Why reading stops. What is at hand is let go: here once, and not part by part on each way out where it was held.
pub fn given_up<V: Drop>(_held: V, why: Stop) -> Stop
    ensures { result ≡ why }
{
    why
}
