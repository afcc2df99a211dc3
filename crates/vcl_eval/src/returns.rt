// How a subroutine returns.
ghost use Rattle.std.specs.Prelude.{◌≡◌, IfOk, IsSome, Some};
ghost use Rattle.vcl_context.specs.Carried.{is_status, is_reason};
ghost use Rattle.vcl_eval.specs.Returns.{plain, with_one, with_two, answered};
ghost use Rattle.vcl_context.specs.declared.turn.Return.TheVariants.{Synth, Error};

use std::alloc::{AllocError, Global};
use units::Text;
use vcl_code::ReturnWord;
use vcl_context::{Return, reason_or_unknown};
use vcl_operands::short_text;
use vcl_values::Value;

/// A word alone, or none where the run ends as `fail`.
pub fn plain(alloc: Global, word: ReturnWord) -> Result<Option<Return>, AllocError>
    requires { IsSome (plain word) }
    ensures { IfOk result (λ ending. plain word ≡ Some ending) }
{
    match word {
        ReturnWord::Hash => Ok(Some(Return::Hash)),
        ReturnWord::Pass => Ok(Some(Return::Pass)),
        ReturnWord::Purge => Ok(Some(Return::Purge)),
        ReturnWord::Restart => Ok(Some(Return::Restart)),
        ReturnWord::Lookup => Ok(Some(Return::Lookup)),
        ReturnWord::Deliver => Ok(Some(Return::Deliver)),
        ReturnWord::Fetch => Ok(Some(Return::Fetch)),
        ReturnWord::Abandon => Ok(Some(Return::Abandon)),
        ReturnWord::Retry => Ok(Some(Return::Retry)),
        ReturnWord::Ok => Ok(Some(Return::Ok)),
        ReturnWord::Error => Ok(erred(503, reason_or_unknown(alloc, 503)?)),
        ReturnWord::Fail => Ok(None),
        ReturnWord::Synth => unreachable!(),
    }
}

/// A word with one value.
pub fn with_one(
    alloc: Global,
    word: ReturnWord,
    value: &Value,
) -> Result<Option<Return>, AllocError>
    requires { IsSome (with_one word value.now) }
    ensures { IfOk result (λ ending. with_one word value.now ≡ Some ending) }
{
    match (word, value) {
        (ReturnWord::Synth, Value::Int(status)) => {
            Ok(synthesized(*status, reason_or_unknown(alloc, *status)?))
        }
        (ReturnWord::Error, Value::Int(status)) => Ok(erred(
            *status,
            reason_or_unknown(alloc, *status)?,
        )),
        (ReturnWord::Pass, Value::Duration(time)) => Ok(Some(Return::PassFor(*time))),
        _ => unreachable!(),
    }
}

/// A word with a status and a reason.
pub fn with_two(
    alloc: Global,
    word: ReturnWord,
    status: &Value,
    reason: &Value,
) -> Result<Option<Return>, AllocError>
    requires { IsSome (with_two word status.now reason.now) }
    ensures { IfOk result (λ ending. with_two word status.now reason.now ≡ Some ending) }
{
    match (word, status) {
        (ReturnWord::Synth, Value::Int(status)) => match short_text(alloc, reason)? {
            Some(reason) => Ok(synthesized(*status, reason)),
            None => Ok(None),
        },
        (ReturnWord::Error, Value::Int(status)) => match short_text(alloc, reason)? {
            Some(reason) => Ok(erred(*status, reason)),
            None => Ok(None),
        },
        _ => unreachable!(),
    }
}

fn synthesized(status: i64, reason: Text) -> Option<Return>
    ensures { result ≡ answered Synth status reason }
{
    if is_status(status) && is_reason(reason.bytes()) {
        Some(Return::Synth(status, reason))
    } else {
        None
    }
}

fn erred(status: i64, reason: Text) -> Option<Return>
    ensures { result ≡ answered Error status reason }
{
    if is_status(status) && is_reason(reason.bytes()) {
        Some(Return::Error(status, reason))
    } else {
        None
    }
}

fn is_status(status: i64) -> bool
    ensures { result ≡ is_status status }
{
    199 < status && status < 1000
}

fn is_reason(text: &[u8]) -> bool
    ensures { result ≡ is_reason text.now }
{
    text.iter()
        .all(|byte| *byte == b'\t' || (*byte >= b' ' && *byte != 0x7f))
}
