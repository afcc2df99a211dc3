// What is wrong with options.
use crate::name::OptionName;
use std::alloc::AllocError;

/// The first fault of options. A place is that of a word among them, counted from 0.
#[derive(Clone, Copy, Debug, PartialEq, Eq)]
pub enum Fault {
    /// The word there is no option.
    Unknown(usize),
    /// The option there was given before.
    Twice(usize),
    /// The option there has no value behind it.
    NoValue(usize),
    /// The word there is no value of this option.
    BadValue(usize, OptionName),
    /// This option isn't given.
    Missing(OptionName),
}

/// Why options give no order.
#[derive(Clone, Copy, Debug, PartialEq, Eq)]
pub enum OrderError {
    Refused(Fault),
    NoMemory,
}

impl From<Fault> for OrderError {
    ghost use Rattle.std.specs.Prelude.{◌≡◌};
    ghost use Rattle.command_line.specs.declared.fault.OrderError.TheVariants.{Refused};

    ghost from_gives = { λ fault e. e ≡ Refused fault };

    fn from(fault: Fault) -> OrderError {
        OrderError::Refused(fault)
    }
}

impl From<AllocError> for OrderError {
    ghost use Rattle.std.specs.Prelude.{◌≡◌};
    ghost use Rattle.command_line.specs.declared.fault.OrderError.TheVariants.{NoMemory};

    ghost from_gives = { λ _ e. e ≡ NoMemory };

    fn from(_e: AllocError) -> OrderError {
        OrderError::NoMemory
    }
}
