// A source, read piece by piece.
ghost use Rattle.std.specs.Prelude.{◌+◌, ◌<◌, ◌≤◌, ◌^◌, length, IfOk, IsErrOf};
ghost use Rattle.wire.specs.Causes.{Rose};
ghost use Rattle.varn_audit.specs.Reading.{HasRead, HasTaken};

use history_audit::HistoryAuditor;
use std::alloc::Global;
use wire::{ReadError, Source};

/// The most bytes that a journal has.
const MOST_BYTES: usize = 1 << 30;

/// How many bytes are read at once.
const PIECE: usize = 65536;

/// An audit that was fed so many bytes more.
#[derive(Drop)]
struct Taken {
    auditor: HistoryAuditor,
    count: usize,
}

// Reads once into the room, and feeds the audit what came. Where nothing came, the source is at its end.
fn take_piece<S: Source>(
    alloc: Global,
    source: &mut S,
    room: &mut [u8],
    auditor: HistoryAuditor,
) -> Result<Taken, ReadError>
    requires { 0 < length room.old }
    ensures taken { IfOk result (λ taken. HasTaken (S.left source.old) (S.left source.new) auditor taken.auditor taken.count) }
    ensures few { IfOk result (λ taken. taken.count ≤ length room.old) }
    ensures later { S.faults source.old ≤ S.faults source.new }
    ensures failed { IsErrOf result ReadError.Failed → Rose (S.faults source.old) (S.faults source.new) }
{
    let count = match source.read(room) {
        Ok(count) => count,
        Err(_) => return Err(ReadError::Failed),
    };
    let auditor = auditor.feed(alloc, &room[..count])?;
    Ok(Taken { auditor, count })
}

/// Feeds an audit all that the source has left, or until one byte more has come than a journal has.
pub(crate) fn read_through<S: Source>(
    alloc: Global,
    source: &mut S,
) -> Result<HistoryAuditor, ReadError>
    ensures read { IfOk result (HasRead (S.left source.old) (S.left source.new)) }
    ensures failed { IsErrOf result ReadError.Failed → Rose (S.faults source.old) (S.faults source.new) }
{
    let mut auditor = HistoryAuditor::new(alloc);
    let mut room = vec![in alloc; 0u8; PIECE]?;
    let mut count = 0;
    'pieces: while count <= MOST_BYTES {
        let wanted = room.len().min(MOST_BYTES - count + 1);
        let taken = take_piece(alloc, source, &mut room[..wanted], auditor)?;
        if taken.count == 0 {
            return Ok(taken.auditor);
        }
        auditor = taken.auditor;
        count += taken.count;
    }
    Ok(auditor)
}
