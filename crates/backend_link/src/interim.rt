// The interim replies in front of a reply.
ghost use Rattle.std.specs.Prelude.{◌≡◌, IfOk};
ghost use Rattle.backend_link.specs.Replies.{is_passed as passed_status};
ghost use Rattle.backend_link.specs.WholeReplies.{IsBehindAll, IsHeadAt};

use crate::is_interim;
use crate::limits::MAX_INTERIM;
use http_heads::{HeadError, ResponseHead, read_response};
use message_reader::Stop;
use std::alloc::{AllocError, Global};

/// The head at the front of the text, and its length; or why there is none.
pub(crate) fn read_head(
    alloc: Global,
    text: &[u8],
) -> Result<Result<(ResponseHead, usize), Stop>, AllocError>
    ensures { IfOk result (IsHeadAt text.now) }
{
    match read_response(alloc, text) {
        Ok(Some(found)) => Ok(Ok(found)),
        Ok(None) => Ok(Err(Stop::Early)),
        Err(error) => {
            if error == HeadError::NoMemory {
                Err(AllocError)
            } else {
                Ok(Err(Stop::BadHead))
            }
        }
    }
}

// 101 changes the protocol, so no reply stands behind it.
fn is_passed(status: u16) -> bool
    ensures { result ≡ passed_status status }
{
    is_interim(status) && status != 101
}

/// What stands behind the interim replies that are passed over, and how many these are.
pub(crate) fn pass_interim(alloc: Global, bytes: &[u8]) -> Result<(&[u8], u8), AllocError>
    ensures { IfOk result (λ found. IsBehindAll bytes.now found.0.now found.1) }
{
    let mut rest = bytes;
    let mut passed: u8 = 0;
    'passing: while passed < MAX_INTERIM {
        match read_head(alloc, rest)? {
            Ok((head, count)) => {
                if !is_passed(head.status) {
                    return Ok((rest, passed));
                }
                rest = &rest[count..];
                passed += 1;
            }
            Err(_) => return Ok((rest, passed)),
        }
    }
    Ok((rest, passed))
}
