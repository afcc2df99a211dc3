// Why words are no ban.
ghost use Rattle.std.specs.Prelude.{◌≡◌};

use std::alloc::{AllocError, AllocFailed};
use std::error::Error;
use std::fmt;

/// Why words are no ban. All but `Shape` are of the first condition that is wrong, in this order.
#[derive(Clone, Copy, Debug, PartialEq, Eq)]
pub enum BanError {
    /// The first word is no field of a request or an object.
    Field,
    /// The second word is no operator of the field.
    Operator,
    /// The third word is no duration, and the field is a time.
    Argument,
    /// The third word is no pattern, and the operator searches for one.
    Pattern,
    /// The words aren't 1 to 16 conditions of three words each with `&&` between two.
    Shape,
    NoMemory,
}

impl fmt::Display for BanError {
    fn fmt<W: fmt::Write>(&self, f: &mut fmt::Formatter<W>) -> fmt::Result {
        f.write_str(match self {
            BanError::Field => "no such field",
            BanError::Operator => "no operator of the field",
            BanError::Argument => "no duration",
            BanError::Pattern => "no pattern",
            BanError::Shape => "no conditions",
            BanError::NoMemory => "out of memory",
        })
    }
}

impl Error for BanError {}

impl From<AllocError> for BanError {
    ghost use Rattle.ban_expr.specs.declared.error.BanError.TheVariants.{NoMemory};

    ghost from_gives = { λ _ error. error ≡ NoMemory };

    fn from(_: AllocError) -> BanError {
        BanError::NoMemory
    }
}

impl<T: Drop> From<AllocFailed<T>> for BanError {
    ghost use Rattle.ban_expr.specs.declared.error.BanError.TheVariants.{NoMemory};

    ghost from_gives = { λ _ error. error ≡ NoMemory };

    fn from(_: AllocFailed<T>) -> BanError {
        BanError::NoMemory
    }
}
