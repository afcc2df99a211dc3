// The next line of a console.
ghost use Rattle.std.specs.Prelude.{◌≡◌, ◌<◌, ◌≤◌, IfOk, IsErrOf, OnErr, length};
ghost use Rattle.std.specs.Io.BufRead.{strip_last};
ghost use Rattle.std.specs.List.{after_first, before_first};
ghost use Rattle.wire.specs.Causes.{Rose};
ghost use Rattle.message_reader.specs.Inputs.{Hears};
ghost use Rattle.console_link.specs.Lines.{LineTold, TryTold, is_lf, line_length, ending_of};

use crate::ConsoleEnd;
use message_reader::{Intake, Stop, fill};
use std::alloc::{AllocError, Global};
use units::Text;
use wire::{Link, Readiness};

/// The most bytes of a line, without its LF.
const MAX_LINE: usize = 1_048_576;

// Asks again and again until a read answers at once.
fn await_more<L: Link>(link: &mut L)
    ensures flow { L.flow link.new ≡ L.flow link.old }
    ensures reads { L.read_faults link.new ≡ L.read_faults link.old }
    ensures writes { L.write_faults link.new ≡ L.write_faults link.old }
    ensures peer { L.peer link.new ≡ L.peer link.old }
{
    for turn in 0..u64::MAX {
        if link.wait() == Readiness::Ready {
            return;
        }
    }
}

// How many bytes stand before the first LF, which isn't among the first `from`.
fn find_end(bytes: &[u8], from: usize) -> usize
    requires { from ≤ line_length bytes.now }
    ensures { result ≡ line_length bytes.now }
{
    let mut end = from;
    while end < bytes.len() && bytes[end] != b'\n' {
        end += 1;
    }
    end
}

// The bytes without a CR at their end.
fn without_cr(bytes: &[u8]) -> &[u8]
    ensures { result.now ≡ strip_last 13 bytes.now }
{
    let len = bytes.len();
    if len > 0 && bytes[len - 1] == b'\r' {
        return &bytes[..len - 1];
    }
    bytes
}

// Takes the line up to the first LF, which stands there.
fn take_line(alloc: Global, held: &mut Intake, end: usize) -> Result<Text, AllocError>
    requires end { end ≡ line_length held.old }
    requires ended { end < length held.old }
    ensures line { IfOk result (λ line. (line ≡ strip_last 13 (before_first is_lf held.old)) × (held.new ≡ after_first is_lf held.old)) }
    ensures same { OnErr result (held.new ≡ held.old) }
{
    let line = Text::of(alloc, without_cr(&held.bytes()[..end]))?;
    held.skip(end + 1);
    Ok(line)
}

// Takes a line from the front of the bytes that are held, of which the first `scanned` have no LF, if a whole one is there.
fn try_line(alloc: Global, held: &mut Intake, scanned: usize) -> Result<Option<Text>, ConsoleEnd>
    requires { scanned ≤ line_length held.old }
    ensures told { TryTold held.new result held.old }
{
    let end = find_end(held.bytes(), scanned);
    if end > MAX_LINE {
        return Err(ConsoleEnd::TooLong);
    }
    if end == held.bytes().len() {
        return Ok(None);
    }
    match take_line(alloc, held, end) {
        Ok(line) => Ok(Some(line)),
        Err(_) => Err(ConsoleEnd::NoMemory),
    }
}

// How a console ends where the link gave nothing more: a read failed, or there was no memory for what it gave.
fn ending(stop: Stop) -> ConsoleEnd
    ensures { result ≡ ending_of stop }
{
    match stop {
        Stop::Read => ConsoleEnd::ReadFault,
        _ => ConsoleEnd::NoMemory,
    }
}

/// Reads the next line. What stands behind it is held. `Closed` is the end of the input, where at most the beginning of a line
/// stands; `TooLong` says that what stands there is over a line's limit.
pub(crate) fn read_line<L: Link>(
    alloc: Global,
    link: &mut L,
    held: &mut Intake,
    room: &mut [u8],
) -> Result<Text, ConsoleEnd>
    requires { 0 < length room.old }
    ensures told { Hears (L.flow link.old) (L.flow link.new) held.old (LineTold (L.flow link.new) held.new result) }
    ensures later { L.read_faults link.old ≤ L.read_faults link.new }
    ensures failed { IsErrOf result ConsoleEnd.ReadFault → Rose (L.read_faults link.old) (L.read_faults link.new) }
    ensures other { L.write_faults link.new ≡ L.write_faults link.old }
    ensures peer { L.peer link.new ≡ L.peer link.old }
{
    if held.bytes().is_empty() {
        await_more(link);
    }
    let mut scanned = 0;
    'reading: loop {
        match try_line(alloc, held, scanned)? {
            Some(line) => return Ok(line),
            None => {}
        }
        scanned = held.bytes().len();
        match fill(link, held, room) {
            Ok(0) => return Err(ConsoleEnd::Closed),
            Ok(_) => {}
            Err(stop) => return Err(ending(stop)),
        }
    }
}
