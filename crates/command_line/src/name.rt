// The names of options.
ghost use Rattle.std.specs.Prelude.{◌≡◌};
ghost use Rattle.std.specs.Str.{bytes_eq};
ghost use Rattle.command_line.specs.Words.{named, takes};

use units::Text;

/// A command whose options are read here.
#[derive(Clone, Copy, Debug, PartialEq, Eq)]
pub enum CommandName {
    Serve,
    Load,
}

impl CommandName {
    /// Whether the option is one of the command's.
    pub(crate) fn takes(self, option: OptionName) -> bool
        ensures { result ≡ takes self option }
    {
        let is_of_load = matches!(option, OptionName::Seed | OptionName::Steps);
        match self {
            CommandName::Serve => !is_of_load,
            CommandName::Load => is_of_load,
        }
    }
}

/// An option of a command.
#[derive(Clone, Copy, Debug, PartialEq, Eq)]
pub enum OptionName {
    Listen,
    Vcl,
    Workers,
    Conns,
    Cli,
    Room,
    History,
    Seed,
    Steps,
}

fn is_word(word: &Text, wanted: &[u8]) -> bool
    ensures { result ≡ bytes_eq word.now wanted.now }
{
    word.bytes() == wanted
}

impl OptionName {
    /// The option that the word names.
    pub(crate) fn of(word: &Text) -> Option<OptionName>
        ensures { result ≡ named word.now }
    {
        if is_word(word, b"--listen") {
            return Some(OptionName::Listen);
        }
        if is_word(word, b"--vcl") {
            return Some(OptionName::Vcl);
        }
        if is_word(word, b"--workers") {
            return Some(OptionName::Workers);
        }
        if is_word(word, b"--conns") {
            return Some(OptionName::Conns);
        }
        if is_word(word, b"--cli") {
            return Some(OptionName::Cli);
        }
        if is_word(word, b"--room") {
            return Some(OptionName::Room);
        }
        if is_word(word, b"--history") {
            return Some(OptionName::History);
        }
        if is_word(word, b"--seed") {
            return Some(OptionName::Seed);
        }
        if is_word(word, b"--steps") {
            return Some(OptionName::Steps);
        }
        None
    }
}
