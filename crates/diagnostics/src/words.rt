// Which word of a command line is faulty, and what was expected.
use command_line::{CommandName, Fault, OptionName};
use std::alloc::{AllocError, Global};
use units::Text;

const SERVE_TAKES: &str =
    "serve takes --listen, --vcl, --workers, --conns, --cli, --room and --history";

const LOAD_TAKES: &str = "load takes --seed and --steps";

const REPLAY_TAKES: &str =
    "replay takes --room N and --history N, each at most once, N a number of bytes from 0 to 1073741824";

fn name_of(option: OptionName) -> &'static str {
    match option {
        OptionName::Listen => "--listen",
        OptionName::Vcl => "--vcl",
        OptionName::Workers => "--workers",
        OptionName::Conns => "--conns",
        OptionName::Cli => "--cli",
        OptionName::Room => "--room",
        OptionName::History => "--history",
        OptionName::Seed => "--seed",
        OptionName::Steps => "--steps",
    }
}

fn taken_by(command: CommandName) -> &'static str {
    match command {
        CommandName::Serve => SERVE_TAKES,
        CommandName::Load => LOAD_TAKES,
    }
}

// What stands behind an option.
fn expected(name: &str) -> &'static str {
    match name {
        "--listen" | "--cli" => "a port from 1 to 65535 is expected",
        "--vcl" => "the name of a file is expected, in UTF-8, that doesn't begin with a hyphen",
        "--workers" => "a number from 1 to 64 is expected",
        "--conns" => "a number from 1 to 1000000 is expected",
        "--seed" => "a number from 0 to 2147483647 is expected",
        "--steps" => "a number from 1 to 100000 is expected",
        _ => "a number of bytes from 0 to 1073741824 is expected",
    }
}

fn text_of(word: &Text) -> &str {
    str::from_utf8(word.bytes()).unwrap_or("a word that isn't UTF-8")
}

fn word_at(options: &[Text], place: usize) -> &str {
    match options.get(place) {
        Some(word) => text_of(word),
        None => "nothing",
    }
}

/// What is wrong with the options of a command.
pub fn order_fault(
    alloc: Global,
    command: CommandName,
    options: &[Text],
    fault: Fault,
) -> Result<String, AllocError> {
    match fault {
        Fault::Unknown(place) => {
            let word = word_at(options, place);
            let taken = taken_by(command);
            format!(in alloc; "no such option: {word}; {taken}")
        }
        Fault::Twice(place) => {
            let word = word_at(options, place);
            format!(in alloc; "given twice: {word}; each option is given once")
        }
        Fault::NoValue(place) => {
            let word = word_at(options, place);
            let expected = expected(word);
            format!(in alloc; "nothing stands behind {word}; {expected}")
        }
        Fault::BadValue(place, option) => {
            let word = word_at(options, place);
            let name = name_of(option);
            let expected = expected(name);
            format!(in alloc; "no value of {name}: {word}; {expected}")
        }
        Fault::Missing(option) => {
            let name = name_of(option);
            let expected = expected(name);
            format!(in alloc; "{name} is missing; behind it {expected}")
        }
    }
}

/// What is wrong with words that begin neither as those of a server nor as those of a load, if this is the first faulty word;
/// None where a word is missing. `audit` takes no word behind it.
pub fn replay_fault(
    alloc: Global,
    words: &[Text],
    faulty: Option<&Text>,
) -> Result<String, AllocError> {
    match (words, faulty) {
        ([], _) => String::from_str(
            alloc,
            "a command is missing; serve, replay, load or audit is expected",
        ),
        ([command, word, ..], _) if command.bytes() == b"audit".as_slice() => {
            let word = text_of(word);
            format!(in alloc;
                "not expected here: {word}; audit stands alone, and reads a journal from standard input"
            )
        }
        ([command, ..], _) if command.bytes() != b"replay".as_slice() => {
            let word = text_of(command);
            format!(in alloc; "no such command: {word}; serve, replay, load or audit is expected")
        }
        (_, Some(word)) => {
            let word = text_of(word);
            format!(in alloc; "not expected here: {word}; {REPLAY_TAKES}")
        }
        ([.., last], None) => {
            let word = text_of(last);
            format!(in alloc; "nothing stands behind {word}; {REPLAY_TAKES}")
        }
    }
}
