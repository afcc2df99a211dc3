// The VCLs that are held.
ghost use Rattle.std.specs.Prelude.{◌≡◌, map, IfOk};
ghost use Rattle.std.specs.Option.{option_copied};
ghost use Rattle.std.specs.List.{list_any};
ghost use Rattle.std.specs.Str.{bytes_eq};
ghost use Rattle.cache_law.specs.Vcls.{called as found_by_name, discarding as discarding_one, is_called as has_name, is_taken as taken, is_under, numbered as numbered_so, references as references_in, state_of as state_in, stays as stays_for, those_staying, vcl_line as line_of, vcl_lines as lines_of};

use cache_law::{LoadedVcl, OpenRound, Vcl, VclLine, VclSource, VclState};
use std::alloc::{AllocError, Global};
use std::collections::VecDeque;
use units::{Copied, Sequence, Text};

fn is_called(name: &Text, loaded: &LoadedVcl) -> bool
    ensures { result ≡ has_name name.now loaded.now }
{
    !loaded.is_discarded && loaded.vcl.name.bytes() == name.bytes()
}

/// The VCL of the name that isn't discarded.
pub(crate) fn called<'a>(vcls: &'a [LoadedVcl], name: &Text) -> Option<&'a LoadedVcl>
    ensures { option_copied result ≡ found_by_name name.now vcls.now }
{
    vcls.iter().find(|loaded| is_called(name, loaded))
}

/// Whether a VCL that isn't discarded has the name.
pub(crate) fn is_taken(vcls: &[LoadedVcl], name: &Text) -> bool
    ensures { result ≡ taken name.now vcls.now }
{
    vcls.iter().any(|loaded| is_called(name, loaded))
}

/// Whether the name is among the backends.
pub(crate) fn has_backend(backends: &[Text], name: &Text) -> bool
    ensures { result ≡ list_any (bytes_eq name.now) backends.now }
{
    backends
        .iter()
        .any(|backend| name.bytes() == backend.bytes())
}

/// How many rounds run under the VCL of this number.
fn references(rounds: &VecDeque<OpenRound>, number: u32) -> usize
    ensures { result ≡ references_in rounds.now.items number }
{
    rounds.iter().filter(|round| round.vcl == number).count()
}

fn is_used(rounds: &VecDeque<OpenRound>, number: u32) -> bool
    ensures { result ≡ list_any (is_under number) rounds.now.items }
{
    rounds.iter().any(|round| round.vcl == number)
}

fn stays(rounds: &VecDeque<OpenRound>, loaded: &LoadedVcl) -> bool
    ensures { result ≡ stays_for rounds.now.items loaded.now }
{
    !loaded.is_discarded || is_used(rounds, loaded.vcl.number)
}

/// Gives up the discarded VCLs that no round runs under.
pub(crate) fn keep_used(vcls: &mut Vec<LoadedVcl>, rounds: &VecDeque<OpenRound>)
    ensures { vcls.new.items ≡ those_staying rounds.now.items vcls.old.items }
{
    vcls.retain(|loaded| stays(rounds, loaded));
}

fn discard_if(loaded: &mut LoadedVcl, number: u32)
    ensures { loaded.new ≡ discarding_one number loaded.old }
{
    if loaded.vcl.number == number {
        loaded.is_discarded = true;
    }
}

/// Discards the VCL of this number.
pub(crate) fn discard(vcls: &mut Vec<LoadedVcl>, number: u32)
    ensures { vcls.new.items ≡ map (discarding_one number) vcls.old.items }
{
    for place in 0..vcls.len() {
        discard_if(&mut vcls[place], number);
    }
}

/// The VCL under its number.
pub(crate) fn numbered(alloc: Global, number: u32, source: &VclSource) -> Result<Vcl, AllocError>
    ensures { IfOk result (λ vcl. vcl ≡ numbered_so number source.now) }
{
    Ok(Vcl {
        number,
        name: source.name.copy()?,
        text: source.text.copy()?,
        backends: source.backends.copied(alloc)?,
    })
}

fn state_of(active: u32, loaded: &LoadedVcl) -> VclState
    ensures { result ≡ state_in active loaded.now }
{
    if loaded.is_discarded {
        return VclState::Discarded;
    }
    if loaded.vcl.number == active {
        VclState::Active
    } else {
        VclState::Available
    }
}

fn vcl_line(
    active: u32,
    rounds: &VecDeque<OpenRound>,
    loaded: &LoadedVcl,
) -> Result<VclLine, AllocError>
    ensures { IfOk result (λ line. line ≡ line_of active rounds.now.items loaded.now) }
{
    Ok(VclLine {
        state: state_of(active, loaded),
        references: references(rounds, loaded.vcl.number) as u64,
        name: loaded.vcl.name.copy()?,
    })
}

/// A line for each VCL, in the order in which they were loaded.
pub(crate) fn vcl_lines(
    alloc: Global,
    active: u32,
    rounds: &VecDeque<OpenRound>,
    vcls: &[LoadedVcl],
) -> Result<Sequence<VclLine>, AllocError>
    ensures { IfOk result (λ lines. lines ≡ lines_of active rounds.now.items vcls.now) }
{
    let mut lines = Sequence::new(alloc);
    for loaded in vcls {
        lines.push(vcl_line(active, rounds, loaded)?)?;
    }
    Ok(lines)
}
