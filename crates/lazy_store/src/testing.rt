// Tests of objects on the bans of a list.
ghost use Rattle.std.specs.Prelude.{◌≡◌, ℕ, false, slice_get, IfOk};
ghost use Rattle.std.specs.Option.{option_copied, option_map_or};
ghost use Rattle.ban_list.specs.Kept.{AreFalling};
ghost use Rattle.lazy_store.specs.Testing.{is_hit, is_matched};

use ban_list::{BanList, Line};
use cache_law::{Object, RequestView};
use std::alloc::{AllocError, Global};

/// Whether one of the bans that are newer than the number matches the object: of those on requests where there is a request,
/// and else of those on objects alone.
pub(crate) fn is_matched(
    bans: &BanList,
    alloc: Global,
    number: u64,
    object: &Object,
    request: Option<&RequestView>,
) -> Result<bool, AllocError>
    requires { (bound : ℕ) × AreFalling bound bans.now.lines }
    ensures { IfOk result (λ matched. matched ≡ is_matched object.now (option_copied request.entry) number bans.now.lines) }
{
    for at in 0..bans.count_newer(number) {
        if hits_at(bans, alloc, at, object, request)? {
            return Ok(true);
        }
    }
    Ok(false)
}

fn hits_at(
    bans: &BanList,
    alloc: Global,
    at: usize,
    object: &Object,
    request: Option<&RequestView>,
) -> Result<bool, AllocError>
    ensures { IfOk result (λ hit. hit ≡ option_map_or (is_hit object.now (option_copied request.entry)) (slice_get bans.now.lines at) false) }
{
    match bans.line(at) {
        Some(line) => hits(line, alloc, object, request),
        None => Ok(false),
    }
}

fn hits(
    line: &Line,
    alloc: Global,
    object: &Object,
    request: Option<&RequestView>,
) -> Result<bool, AllocError>
    ensures { IfOk result (λ hit. hit ≡ is_hit object.now (option_copied request.entry) line.now) }
{
    if line.is_completed() || line.is_object_only() == request.is_some() {
        return Ok(false);
    }
    line.test(alloc, object, request)
}
