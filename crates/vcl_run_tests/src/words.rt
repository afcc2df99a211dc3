// Words of a run's end.
use row_settings::push_bytes;
use std::alloc::AllocError;
use units::Text;
use vcl_context::Return;

/// The word with what stands behind it.
pub fn push_word(shown: &mut String, word: &Return) -> Result<(), AllocError> {
    shown.push(' ')?;
    match word {
        Return::Synth(status, reason) => push_answer(shown, "synth", *status, reason),
        Return::Error(status, reason) => push_answer(shown, "error", *status, reason),
        Return::PassFor(time) => {
            write!(shown, "pass {time}")?;
            Ok(())
        }
        _ => {
            shown.push_str(plain(word))?;
            Ok(())
        }
    }
}

fn push_answer(
    shown: &mut String,
    word: &str,
    status: i64,
    reason: &Text,
) -> Result<(), AllocError> {
    write!(shown, "{word} {status} ")?;
    push_bytes(shown, reason.bytes())
}

fn plain(word: &Return) -> &'static str {
    match word {
        Return::Hash => "hash",
        Return::Pass => "pass",
        Return::Purge => "purge",
        Return::Restart => "restart",
        Return::Fail => "fail",
        Return::Lookup => "lookup",
        Return::Deliver => "deliver",
        Return::Fetch => "fetch",
        Return::Abandon => "abandon",
        Return::Retry => "retry",
        Return::Ok => "ok",
        Return::PassFor(_) | Return::Synth(_, _) | Return::Error(_, _) => "",
    }
}
