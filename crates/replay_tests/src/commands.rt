// What a line and the text of a file come to: the call, or the answer in quotes.
use crate::calls::call_shown;
use cache_law::Call;
use cli_console::{CliAnswer, Command, loaded, pong, read_command};
use std::alloc::{AllocError, Global};
use units::Text;
use vmod_host::VmodTable;

/// What a line says. A file that it names can't be read.
pub fn line_shown(alloc: Global, line: &str, vmods: &VmodTable) -> Result<String, AllocError> {
    let line = Text::of(alloc, line.as_bytes())?;
    match read_command(alloc, &line, vmods) {
        Ok(command) => command_shown(alloc, command, vmods),
        Err(answer) => answer_shown(alloc, &answer),
    }
}

fn command_shown(alloc: Global, command: Command, vmods: &VmodTable) -> Result<String, AllocError> {
    match command {
        Command::Ping => pong_shown(alloc),
        Command::Quit(text) => format!(in alloc; "{text:?}"),
        Command::Cache(call) => call_shown(alloc, &call),
        Command::Load { name, file } => {
            loading_shown(alloc, loaded(alloc, name, &file, None, vmods))
        }
    }
}

fn pong_shown(alloc: Global) -> Result<String, AllocError> {
    let text = pong(alloc, 5_999)?;
    format!(in alloc; "{text:?}")
}

/// What comes of loading a file with this text under the name v.
pub fn file_shown(alloc: Global, text: &str, vmods: &VmodTable) -> Result<String, AllocError> {
    let file = Text::of(alloc, b"f")?;
    let name = Text::of(alloc, b"v")?;
    let text = Text::of(alloc, text.as_bytes())?;
    loading_shown(alloc, loaded(alloc, name, &file, Some(text), vmods))
}

fn loading_shown(alloc: Global, call: Result<Call, CliAnswer>) -> Result<String, AllocError> {
    match call {
        Ok(call) => call_shown(alloc, &call),
        Err(answer) => answer_shown(alloc, &answer),
    }
}

fn answer_shown(alloc: Global, answer: &CliAnswer) -> Result<String, AllocError> {
    match answer {
        CliAnswer::Refused(text) => format!(in alloc; "{text:?}"),
        CliAnswer::NoMemory => format!(in alloc; "no memory"),
    }
}
