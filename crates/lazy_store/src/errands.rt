// What the lurker is to test an object on.
ghost use Rattle.std.specs.Prelude.{◌≡◌, ◌++◌, ℕ, slice_get, option_and_then, option_to_list, IfOk, OnOk};
ghost use Rattle.cache_law.specs.ShownBans.{those_open};
ghost use Rattle.ban_list.specs.Kept.{AreFalling};
ghost use Rattle.lazy_law.specs.Placed.{above};
ghost use Rattle.lazy_store.specs.Chores.{alone_in};

use ban_list::{BanList, Line};
use ban_lurker::BanRun;
use cache_law::Issued;
use std::alloc::{AllocError, Global};
use units::Sequence;

/// The bans on objects alone that are newer than the mark.
pub(crate) fn bans_above(bans: &BanList, alloc: Global, mark: u64) -> Result<BanRun, AllocError>
    requires { (bound : ℕ) × AreFalling bound bans.now.lines }
    ensures { IfOk result (λ run. run ≡ above mark (those_open bans.now.lines)) }
{
    match BanRun::of(issued_above(bans, alloc, mark)?) {
        Some(run) => Ok(run),
        None => unreachable!(),
    }
}

fn issued_above(bans: &BanList, alloc: Global, mark: u64) -> Result<Sequence<Issued>, AllocError>
    requires { (bound : ℕ) × AreFalling bound bans.now.lines }
    ensures { IfOk result (λ issued. issued ≡ above mark (those_open bans.now.lines)) }
{
    let mut above = Sequence::new(alloc);
    for at in 0..bans.count_newer(mark) {
        push_alone(&mut above, bans, at)?;
    }
    Ok(above)
}

fn push_alone(issued: &mut Sequence<Issued>, bans: &BanList, at: usize) -> Result<(), AllocError>
    ensures { OnOk result (issued.new ≡ issued.old ++ option_to_list (option_and_then alone_in (slice_get bans.now.lines at))) }
{
    if let Some(one) = alone_at(bans, at)? {
        issued.push(one)?;
    }
    Ok(())
}

fn alone_at(bans: &BanList, at: usize) -> Result<Option<Issued>, AllocError>
    ensures { IfOk result (λ found. found ≡ option_and_then alone_in (slice_get bans.now.lines at)) }
{
    match bans.line(at) {
        Some(line) => alone_in(line),
        None => Ok(None),
    }
}

// The line's ban, where it is on objects alone and isn't completed.
fn alone_in(line: &Line) -> Result<Option<Issued>, AllocError>
    ensures { IfOk result (λ found. found ≡ alone_in line.now) }
{
    if line.is_completed() || !line.is_object_only() {
        return Ok(None);
    }
    Ok(Some(line.shown()?.issued))
}
