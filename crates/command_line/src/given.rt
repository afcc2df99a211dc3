// What options give.
ghost use Rattle.std.specs.Prelude.{◌≡◌, ◌↔◌, ℕ, IsTrue, true, false, MatchOption, MatchResult, IfOk};
ghost use Rattle.command_line.specs.declared.given.Given.{Given as Told};
ghost use Rattle.command_line.specs.Words.{IsFile, IsLoad, IsWithin, IsOrder, Puts, has, nothing};
ghost use Rattle.command_line.specs.Faults.{IsMissing, missing_of_load, missing_of_serve, option_at};

use crate::fault::Fault;
use crate::name::{CommandName, OptionName};
use crate::order::{LoadOptions, ServeOptions};
use std::alloc::AllocError;
use units::{Text, read_number};

/// The room and the history that aren't given.
const USUAL: u64 = 268_435_456;

/// The greatest port.
const MAX_PORT: u64 = 65_535;

/// The number of connections that isn't given: the greatest history has fewer requests.
const ENDLESS: u32 = 10_000_000;

/// What the options in front have given.
#[derive(Drop)]
pub(crate) struct Given {
    pub listen: Option<u16>,
    pub file: Option<Text>,
    pub workers: Option<u32>,
    pub conns: Option<u32>,
    pub cli: Option<u16>,
    pub room: Option<u64>,
    pub history: Option<u64>,
    pub seed: Option<u32>,
    pub steps: Option<u32>,
}

// The number that the word is, if it is one between these.
fn number_in(word: &Text, least: u64, most: u64) -> Option<u64>
    ensures { MatchOption result ((n : ℕ) → IsWithin least most word.now n → ⊥) (IsWithin least most word.now) }
{
    let number = read_number(word.bytes())?;
    if number < least {
        return None;
    }
    if number > most {
        return None;
    }
    Some(number)
}

// Whether the word may be the name of a file.
fn is_file(word: &Text) -> bool
    ensures { IsTrue result ↔ IsFile word.now }
{
    match word.bytes() {
        [] => false,
        [first, ..] => *first != b'-' && str::from_utf8(word.bytes()).is_ok(),
    }
}

impl Given {
    pub fn nothing() -> Given
        ensures { result ≡ nothing }
    {
        Given {
            listen: None,
            file: None,
            workers: None,
            conns: None,
            cli: None,
            room: None,
            history: None,
            seed: None,
            steps: None,
        }
    }

    // Whether the option is among them.
    fn has(&self, option: OptionName) -> bool
        ensures { result ≡ has self.now option }
    {
        match option {
            OptionName::Listen => self.listen.is_some(),
            OptionName::Vcl => self.file.is_some(),
            OptionName::Workers => self.workers.is_some(),
            OptionName::Conns => self.conns.is_some(),
            OptionName::Cli => self.cli.is_some(),
            OptionName::Room => self.room.is_some(),
            OptionName::History => self.history.is_some(),
            OptionName::Seed => self.seed.is_some(),
            OptionName::Steps => self.steps.is_some(),
        }
    }

    /// The option of the command that the word at this place names, if it may be given yet.
    pub fn option_at(
        &self,
        command: CommandName,
        place: usize,
        word: &Text,
    ) -> Result<OptionName, Fault>
        ensures { result ≡ option_at command self.now place word.now }
    {
        match OptionName::of(word) {
            Some(option) => {
                if !command.takes(option) {
                    Err(Fault::Unknown(place))
                } else if self.has(option) {
                    Err(Fault::Twice(place))
                } else {
                    Ok(option)
                }
            }
            None => Err(Fault::Unknown(place)),
        }
    }

    /// Takes the value of an option that wasn't given yet, and tells whether it is one.
    pub fn put(&mut self, option: OptionName, value: &Text) -> Result<bool, AllocError>
        requires { has self.old option ≡ false }
        ensures put { IfOk result (λ done. done ≡ true → Puts self.old option value.now self.new) }
        ensures wrong { IfOk result (λ done. done ≡ false → (after : Told) → Puts self.old option value.now after → ⊥) }
    {
        match option {
            OptionName::Listen => match number_in(value, 1, MAX_PORT) {
                Some(port) => self.listen = Some(port as u16),
                None => return Ok(false),
            },
            OptionName::Vcl => {
                if !is_file(value) {
                    return Ok(false);
                }
                self.file = Some(value.copy()?);
            }
            OptionName::Workers => match number_in(value, 1, 64) {
                Some(workers) => self.workers = Some(workers as u32),
                None => return Ok(false),
            },
            OptionName::Conns => match number_in(value, 1, 1_000_000) {
                Some(conns) => self.conns = Some(conns as u32),
                None => return Ok(false),
            },
            OptionName::Cli => match number_in(value, 1, MAX_PORT) {
                Some(port) => self.cli = Some(port as u16),
                None => return Ok(false),
            },
            OptionName::Room => match number_in(value, 0, 1_073_741_824) {
                Some(room) => self.room = Some(room),
                None => return Ok(false),
            },
            OptionName::History => match number_in(value, 0, 1_073_741_824) {
                Some(history) => self.history = Some(history),
                None => return Ok(false),
            },
            OptionName::Seed => match number_in(value, 0, 2_147_483_647) {
                Some(seed) => self.seed = Some(seed as u32),
                None => return Ok(false),
            },
            OptionName::Steps => match number_in(value, 1, 100_000) {
                Some(steps) => self.steps = Some(steps as u32),
                None => return Ok(false),
            },
        }
        Ok(true)
    }

    /// The order of a server, if all that it wants is given.
    pub fn into_order(self) -> Result<ServeOptions, Fault>
        ensures { MatchResult result (IsOrder self) (IsMissing (missing_of_serve self)) }
    {
        let Given {
            listen,
            file,
            workers,
            conns,
            cli,
            room,
            history,
            ..
        } = self;
        let Some(port) = listen else {
            return Err(Fault::Missing(OptionName::Listen));
        };
        let Some(file) = file else {
            return Err(Fault::Missing(OptionName::Vcl));
        };
        let Some(workers) = workers else {
            return Err(Fault::Missing(OptionName::Workers));
        };
        Ok(ServeOptions {
            port,
            file,
            workers,
            conns: conns.unwrap_or(ENDLESS),
            cli,
            room: room.unwrap_or(USUAL),
            history: history.unwrap_or(USUAL),
        })
    }

    /// The load, if all that it wants is given.
    pub fn into_load(self) -> Result<LoadOptions, Fault>
        ensures { MatchResult result (IsLoad self) (IsMissing (missing_of_load self)) }
    {
        let Given { seed, steps, .. } = self;
        let Some(seed) = seed else {
            return Err(Fault::Missing(OptionName::Seed));
        };
        let Some(steps) = steps else {
            return Err(Fault::Missing(OptionName::Steps));
        };
        Ok(LoadOptions { seed, steps })
    }
}
