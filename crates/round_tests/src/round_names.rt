// Wants of a round by their names.
use cache_law::Call;
use round_task::Want;
use std::alloc::AllocError;

fn push_call(out: &mut String, call: &Call) -> Result<(), AllocError> {
    match call {
        Call::Begin => out.push_str("begin"),
        Call::Ban(_) => out.push_str("ban"),
        Call::Xkey { .. } => out.push_str("purge of keys"),
        Call::Lookup(_) => out.push_str("lookup"),
        Call::Purge { .. } => out.push_str("purge"),
        Call::Draw => out.push_str("draw"),
        Call::Pick { vcl, word, .. } => write!(out, "pick under {vcl} by {word}"),
        Call::Insert {
            token,
            stale: Some(number),
            ..
        } => write!(out, "insert {token} for {number}"),
        Call::Insert { token, .. } => write!(out, "insert {token}"),
        Call::Drop { token } => write!(out, "drop {token}"),
        Call::End => out.push_str("end"),
        _ => out.push_str("another call"),
    }
}

/// Adds what is wanted, by its name and its numbers, behind a comma where something stands already.
pub fn push_want(out: &mut String, want: &Want) -> Result<(), AllocError> {
    if !out.is_empty() {
        out.push_str(", ")?;
    }
    match want {
        Want::Cache(call) => push_call(out, call),
        Want::Exchange { number, .. } => write!(out, "exchange {number}"),
        Want::Send(delivery) => write!(out, "response {}", delivery.head.status),
        Want::Done => out.push_str("done"),
    }
}
