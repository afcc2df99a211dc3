// What was expected at a bad line, in words.
use cache_law::Call;
use journal_audit::Expected;
use journal_reader::{Fault, Refusal, Wanted};
use journal_text::{Line, Said, Shown, push_line};
use std::alloc::{AllocError, Global};

const FEWER_BYTES: &str = "a journal of no more than 1073741824 bytes";

const FIRST_LINE: &str = "the first line of a journal, which begins with `varn`";

const LATER_LINE: &str = "an entry, `cut` or `close`, and no first line";

const FITTING: &str =
    "an entry that fits the limit of the first line, with 64 bytes for the end of each round and each fetch that is open behind it";

const LIST_OF_BANS: &str =
    "a list that has each ban that an object waits for, and no other bans than those of the journal, the newest first, of which those alone are completed that have a newer equal one in the list";

const CLOSED: &str = "the end of each round and each fetch that is open, before the segment ends";

const LINE_FEED: &str = "LF at the end of the line";

const CLOSE: &str = "`close`";

const NOTHING: &str = "no line behind `close`";

fn wanted_words(wanted: Wanted) -> &'static str {
    match wanted {
        Wanted::Line => "`varn`, `e`, `cut` or `close`",
        Wanted::Call => "the name of a call",
        Wanted::Equals => "`=`",
        Wanted::Reply => "the name of a reply",
        Wanted::Object => "`o`, `m` or `p`",
        Wanted::Director => "the name of a kind of director",
        Wanted::Health => "`auto`, `healthy` or `sick`",
        Wanted::State => "`active`, `available` or `discarded`",
        Wanted::Number => "a number below 18446744073709551616",
        Wanted::Middle => "a number below 4294967296",
        Wanted::Short => "a number below 65536",
        Wanted::Time => "a number from -9223372036854775808 to 9223372036854775807",
        Wanted::Truth => "`0` or `1`",
        Wanted::Text => "a quoted text",
        Wanted::NumberOrNone => "a number below 18446744073709551616, or `-`",
        Wanted::TimeOrNone => {
            "a number from -9223372036854775808 to 9223372036854775807, or `-`"
        }
        Wanted::TextOrNone => "a quoted text, or `-`",
    }
}

fn refusal_words(alloc: Global, refusal: Refusal) -> Result<String, AllocError> {
    let column = refusal.column;
    match refusal.fault {
        Fault::Expected(wanted) => {
            let wanted = wanted_words(wanted);
            format!(in alloc; "{wanted} in column {column}")
        }
        Fault::NoBan(error) => {
            format!(in alloc; "the words of a ban in column {column}: these have {error}")
        }
        Fault::Otherwise => {
            format!(in alloc;
                "the line as a journal writes it, which is another one from column {column} on"
            )
        }
        Fault::Longer => format!(in alloc; "the end of the line in column {column}"),
    }
}

// The words that a line has of the reply.
fn reply_words(alloc: Global, reply: Shown) -> Result<String, AllocError> {
    let line = Line::Entry(Said {
        caller: 0,
        moment: 0,
        call: Call::End,
        reply,
    });
    let mut text = Vec::new(alloc);
    push_line(&mut text, alloc, &line)?;
    let text = String::from_utf8_lossy(alloc, text.as_slice())?;
    match text.trim_end().split_once(" = ") {
        Some((_, words)) => format!(in alloc; "the reply `{words}`"),
        None => String::from_str(alloc, "another reply"),
    }
}

/// What was expected, in words.
pub fn words_of(alloc: Global, expected: Expected) -> Result<String, AllocError> {
    match expected {
        Expected::Line(refusal) => refusal_words(alloc, refusal),
        Expected::FewerBytes => String::from_str(alloc, FEWER_BYTES),
        Expected::FirstLine => String::from_str(alloc, FIRST_LINE),
        Expected::LaterLine => String::from_str(alloc, LATER_LINE),
        Expected::Moment(moment) => format!(in alloc; "no moment before {moment}"),
        Expected::Closing(token) => {
            format!(in alloc; "no lookup of the caller before fetch {token} is closed")
        }
        Expected::Fitting => String::from_str(alloc, FITTING),
        Expected::Reply(reply) => reply_words(alloc, reply),
        Expected::ListOfBans => String::from_str(alloc, LIST_OF_BANS),
        Expected::Closed => String::from_str(alloc, CLOSED),
        Expected::LineFeed => String::from_str(alloc, LINE_FEED),
        Expected::Close => String::from_str(alloc, CLOSE),
        Expected::Nothing => String::from_str(alloc, NOTHING),
    }
}
