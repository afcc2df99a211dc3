// Options, read in their order.
ghost use Rattle.std.specs.Prelude.{◌+◌, ◌<◌, ◌^◌, length, IfOk, IfErr, OnOk};
ghost use Rattle.command_line.specs.declared.order.ServeOptions.{ServeOptions as Asked};
ghost use Rattle.command_line.specs.declared.order.LoadOptions.{LoadOptions as AskedLoad};
ghost use Rattle.command_line.specs.declared.name.CommandName.TheVariants.{Load, Serve};
ghost use Rattle.command_line.specs.Words.{Asks, AsksLoad, Reads};
ghost use Rattle.command_line.specs.Faults.{IsFault, Refuses, Stops, missing_of_load, missing_of_serve};

use crate::fault::{Fault, OrderError};
use crate::given::Given;
use crate::name::CommandName;
use crate::order::{LoadOptions, ServeOptions};
use units::Text;

// Reads options of the command, of which the first stands at this place.
fn read_options(
    command: CommandName,
    options: &[Text],
    place: usize,
    given: &mut Given,
) -> Result<(), OrderError>
    requires { place + length options.now < 2 ^ 63 }
    ensures reads { OnOk result (Reads command given.old options.now given.new) }
    ensures stops { IfErr result (Refuses (Stops command given.old place options.now)) }
{
    match options {
        [] => Ok(()),
        [name] => {
            given.option_at(command, place, name)?;
            Err(OrderError::Refused(Fault::NoValue(place)))
        }
        [name, value, more @ ..] => {
            let option = given.option_at(command, place, name)?;
            if !given.put(option, value)? {
                return Err(OrderError::Refused(Fault::BadValue(place + 1, option)));
            }
            read_options(command, more, place + 2, given)
        }
    }
}

/// The order of a server that the options give, or their first fault.
pub fn read_order(options: &[Text]) -> Result<ServeOptions, OrderError>
    ensures order { IfOk result (Asks options.now) }
    ensures fault { IfErr result (Refuses (IsFault Serve missing_of_serve options.now)) }
    ensures outside { IfErr result (Refuses (λ _. (order : Asked) → Asks options.now order → ⊥)) }
{
    let mut given = Given::nothing();
    match read_options(CommandName::Serve, options, 0, &mut given) {
        Ok(()) => match given.into_order() {
            Ok(order) => Ok(order),
            Err(fault) => Err(OrderError::Refused(fault)),
        },
        Err(error) => Err(error),
    }
}

/// The load that the options give, or their first fault.
pub fn read_load(options: &[Text]) -> Result<LoadOptions, OrderError>
    ensures load { IfOk result (AsksLoad options.now) }
    ensures fault { IfErr result (Refuses (IsFault Load missing_of_load options.now)) }
    ensures outside { IfErr result (Refuses (λ _. (load : AskedLoad) → AsksLoad options.now load → ⊥)) }
{
    let mut given = Given::nothing();
    match read_options(CommandName::Load, options, 0, &mut given) {
        Ok(()) => match given.into_load() {
            Ok(load) => Ok(load),
            Err(fault) => Err(OrderError::Refused(fault)),
        },
        Err(error) => Err(error),
    }
}
