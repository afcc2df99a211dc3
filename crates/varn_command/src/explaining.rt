// What is said on standard error of a run that wasn't whole.
use crate::outcome::{Note, Outcome, Status};
use crate::running::{asks_audit, command_of};
use command_line::{CommandName, OrderError, ServeOptions, read_load, read_order};
use diagnostics::{order_fault, replay_fault, session_refusal, unseen_refusal, vcl_refusal};
use journal_audit::Expected;
use std::alloc::{AllocError, Global};
use system::{WordsError, tell};
use units::Text;
use varn_audit::words_of;
use varn_program::faulty_word;
use vcl_tree::Refusal;
use world::{World, read_file};

const NO_MEMORY: &str = "out of memory";

const UNWRITABLE: &str = "standard output can't be written to";

const UNREADABLE: &str = "the session can't be read from standard input";

const UNREADABLE_JOURNAL: &str = "the journal can't be read from standard input";

const HISTORY_FULL: &str = "the history is full: --history takes up to 1073741824 bytes";

/// Says that the help couldn't be printed.
pub(crate) fn explain_unwritten(rt: &HostRuntime) {
    tell(rt, UNWRITABLE);
}

/// Says why the words of the command line couldn't be had.
pub(crate) fn explain_wordless(rt: &HostRuntime, error: WordsError) {
    match error {
        WordsError::Unreadable => tell(rt, "a word of the command line, or VARN_STOP, isn't UTF-8"),
        WordsError::NoMemory => tell(rt, NO_MEMORY),
    }
}

// Says a text, or that there was no memory for it.
fn say(rt: &HostRuntime, text: Result<String, AllocError>) {
    match text {
        Ok(text) => tell(rt, text.as_str()),
        Err(_) => tell(rt, NO_MEMORY),
    }
}

// Why the options of a command give no order.
fn order_error(command: CommandName, options: &[Text]) -> Option<OrderError> {
    match command {
        CommandName::Serve => read_order(options).err(),
        CommandName::Load => read_load(options).err(),
    }
}

// Where the options of a command are told.
fn help_on(command: CommandName) -> &'static str {
    match command {
        CommandName::Serve => "varn serve --help tells each option",
        CommandName::Load => "varn load --help tells each option",
    }
}

// Says which word is faulty, and what was expected.
fn explain_words(rt: &HostRuntime, words: &[Text]) {
    match command_of(words) {
        Some((command, options)) => {
            if let Some(OrderError::Refused(fault)) = order_error(command, options) {
                say(rt, order_fault(rt.alloc(), command, options, fault));
            }
            tell(rt, help_on(command));
        }
        None => {
            say(rt, replay_fault(rt.alloc(), words, faulty_word(words)));
            tell(rt, "varn --help tells each command and its options");
        }
    }
}

// Says at which line a session is faulty, and why.
fn explain_line(rt: &HostRuntime, line: u32, kind: u8) {
    let cause = session_refusal(kind);
    let _ = eprintln!(rt; "line {line} kind {kind}\nline {line}: {cause}");
}

// Says at which line a journal isn't that of a lawful history, and what was expected there.
fn explain_journal(rt: &HostRuntime, line: u32, expected: Option<Expected>) {
    let Some(expected) = expected else {
        return;
    };
    let alloc = rt.alloc();
    match words_of(alloc, expected) {
        Ok(words) => say(rt, format!(in alloc; "line {line}: {words} was expected")),
        Err(_) => tell(rt, NO_MEMORY),
    }
}

// Says where the VCL is refused, and why. Its file is read once more, for a run keeps no text that it refused.
fn explain_place<W: World>(
    rt: &HostRuntime,
    world: &mut W,
    file: &Text,
    place: u32,
    kind: Refusal,
) {
    let number = kind.number();
    let _ = eprintln!(rt; "place {place} kind {number}");
    let told = match read_file(world, file) {
        Ok(Some(text)) => vcl_refusal(rt.alloc(), file, &text, place, kind),
        _ => unseen_refusal(rt.alloc(), file, place, kind),
    };
    say(rt, told);
}

// Which port can't be had.
fn unheard(alloc: Global, order: &ServeOptions) -> Result<String, AllocError> {
    let port = order.port;
    match order.cli {
        Some(console) => format!(in alloc;
            "port {port} or the console's port {console} can't be listened at (it may be in use), or accepting there failed"
        ),
        None => format!(in alloc;
            "port {port} can't be listened at (it may be in use), or accepting there failed"
        ),
    }
}

// Says what kept a server from serving.
fn explain_server<W: World>(
    rt: &HostRuntime,
    world: &mut W,
    order: &ServeOptions,
    outcome: &Outcome,
) {
    let file = str::from_utf8(order.file.bytes()).unwrap_or("the file");
    let alloc = rt.alloc();
    match (outcome.status, outcome.note) {
        (Status::Vcl, Some(Note::Place { place, kind })) => {
            explain_place(rt, world, &order.file, place, kind)
        }
        (Status::Vcl, _) => say(rt, format!(in alloc; "{file}: there is no such file")),
        (Status::ReadFault, _) => say(rt, format!(in alloc; "{file} can't be read")),
        _ => say(rt, unheard(alloc, order)),
    }
}

// The order of a server that the words give, if they do.
fn order_of(words: &[Text]) -> Option<ServeOptions> {
    match command_of(words) {
        Some((CommandName::Serve, options)) => read_order(options).ok(),
        _ => None,
    }
}

/// Says what kept a run of these words from being whole.
pub(crate) fn explain<W: World>(rt: &HostRuntime, words: &[Text], world: &mut W, outcome: Outcome) {
    match (outcome.status, outcome.note) {
        (Status::Done, _) => {}
        (Status::Words, _) => explain_words(rt, words),
        (Status::Session, Some(Note::Line { line, kind })) => explain_line(rt, line, kind),
        (Status::Illegal, Some(Note::Line { line, .. })) => {
            explain_journal(rt, line, outcome.expected)
        }
        (Status::ReadFault, _) if asks_audit(words) => tell(rt, UNREADABLE_JOURNAL),
        (Status::WriteFault, _) => tell(rt, UNWRITABLE),
        (Status::NoMemory, _) => tell(rt, NO_MEMORY),
        (Status::HistoryFull, _) => tell(rt, HISTORY_FULL),
        _ => match order_of(words) {
            Some(order) => explain_server(rt, world, &order, &outcome),
            None => tell(rt, UNREADABLE),
        },
    }
}
