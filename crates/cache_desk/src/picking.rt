// Which member a target stands for: the health of backends, the counters of directors, and the choice.
ghost use Rattle.std.specs.Prelude.{◌≡◌, ◌+◌, ◌<◌, ◌≤◌, ◌∷◌, not, find, filter, length, map, IfOk, IfSome, OnOk, OnErr};
ghost use Rattle.std.specs.Vec.{vec_capacity};
ghost use Rattle.std.specs.Option.{option_copied};
ghost use Rattle.cache_law.specs.Targets.{chosen as place_chosen, counted_on, counter_of as counter_in, is_counter_of as counts, is_health_of as is_forced, is_healthy as healthy, name_at as named_at, weight_of as weight_in, weights_of as weights_in, with_counter, with_health, without_health};

use cache_law::{Counter, ForcedHealth, Health};
use directors::{DirectorKind, Member, Target, choose};
use std::alloc::{AllocError, Global};
use units::{Sequence, Text};

fn is_health_of(vcl: u32, backend: &Text, forced: &ForcedHealth) -> bool
    ensures { result ≡ is_forced vcl backend.now forced.now }
{
    forced.vcl == vcl && forced.backend.bytes() == backend.bytes()
}

fn forced_of<'a>(health: &'a [ForcedHealth], vcl: u32, backend: &Text) -> Option<&'a ForcedHealth>
    ensures { option_copied result ≡ find (is_forced vcl backend.now) health.now }
{
    health
        .iter()
        .find(|forced| is_health_of(vcl, backend, forced))
}

/// Whether the backend wasn't set to be sick.
fn is_healthy(health: &[ForcedHealth], vcl: u32, backend: &Text) -> bool
    ensures { result ≡ healthy health.now vcl backend.now }
{
    match forced_of(health, vcl, backend) {
        Some(forced) => forced.is_healthy,
        None => true,
    }
}

fn weight_of(health: &[ForcedHealth], vcl: u32, member: &Member) -> u32
    ensures { result ≡ weight_in health.now vcl member.now }
{
    if is_healthy(health, vcl, &member.name) {
        member.weight
    } else {
        0
    }
}

fn weights_of(
    alloc: Global,
    health: &[ForcedHealth],
    vcl: u32,
    members: &[Member],
) -> Result<Sequence<u32>, AllocError>
    ensures { IfOk result (λ weights. weights ≡ map (weight_in health.now vcl) members.now) }
{
    let mut weights = Sequence::new(alloc);
    for member in members {
        weights.push(weight_of(health, vcl, member))?;
    }
    Ok(weights)
}

fn is_counter_of(vcl: u32, director: &Text, counter: &Counter) -> bool
    ensures { result ≡ counts vcl director.now counter.now }
{
    counter.vcl == vcl && counter.director.bytes() == director.bytes()
}

fn counter_among<'a>(counters: &'a [Counter], vcl: u32, director: &Text) -> Option<&'a Counter>
    ensures { option_copied result ≡ find (counts vcl director.now) counters.now }
{
    counters
        .iter()
        .find(|counter| is_counter_of(vcl, director, counter))
}

/// How far the director has counted.
fn counter_of(counters: &[Counter], vcl: u32, director: &Text) -> u64
    ensures { result ≡ counter_in counters.now vcl director.now }
{
    match counter_among(counters, vcl, director) {
        Some(counter) => counter.next,
        None => 0,
    }
}

/// The place of the member that the target chooses.
pub(crate) fn chosen(
    alloc: Global,
    health: &[ForcedHealth],
    counters: &[Counter],
    vcl: u32,
    target: &Target,
    word: u64,
) -> Result<Option<usize>, AllocError>
    ensures value { IfOk result (λ place. place ≡ place_chosen health.now counters.now vcl target.now word) }
    ensures within { IfOk result (λ place. IfSome place (λ p. p < length target.now.members)) }
{
    let weights = weights_of(alloc, health, vcl, target.members.as_slice())?;
    let next = counter_of(counters, vcl, &target.name);
    Ok(choose(target.kind, &weights, next, word))
}

/// The name of the member at the place.
pub(crate) fn name_at(members: &[Member], place: usize) -> Result<Option<Text>, AllocError>
    ensures { IfOk result (λ name. name ≡ named_at place members.now) }
{
    match members.get(place) {
        Some(member) => Ok(Some(member.name.copy()?)),
        None => Ok(None),
    }
}

/// Puts the counter before the others, where there is room for it.
fn put_counter(counters: &mut Vec<Counter>, counter: Counter)
    requires { length counters.old.items < vec_capacity counters.old }
    ensures { counters.new.items ≡ counter ∷ counters.old.items }
{
    let _ = counters.insert(0, counter);
}

fn drop_counter(counters: &mut Vec<Counter>, vcl: u32, director: &Text)
    ensures items { counters.new.items ≡ filter (λ counter. not (counts vcl director.now counter)) counters.old.items }
    ensures len { length counters.new.items ≤ length counters.old.items }
    ensures capacity { vec_capacity counters.new ≡ vec_capacity counters.old }
{
    counters.retain(|counter| !is_counter_of(vcl, director, counter));
}

fn set_counter(
    counters: &mut Vec<Counter>,
    vcl: u32,
    director: &Text,
    next: u64,
) -> Result<(), AllocError>
    ensures ok { OnOk result (counters.new.items ≡ with_counter vcl director.now next counters.old.items) }
    ensures err { OnErr result (counters.new.items ≡ counters.old.items) }
{
    counters.try_reserve(1)?;
    let counter = Counter {
        vcl,
        director: director.copy()?,
        next,
    };
    drop_counter(counters, vcl, director);
    put_counter(counters, counter);
    Ok(())
}

/// The place behind that of a member.
fn next_behind(members: &[Member], place: usize) -> u64
    requires { place < length members.now }
    ensures { result ≡ place + 1 }
{
    place as u64 + 1
}

/// A director of kind round_robin goes on behind the place that it chose.
pub(crate) fn count_on(
    counters: &mut Vec<Counter>,
    vcl: u32,
    target: &Target,
    place: usize,
) -> Result<(), AllocError>
    requires { place < length target.now.members }
    ensures ok { OnOk result (counters.new.items ≡ counted_on target.now.kind vcl target.now.name place counters.old.items) }
    ensures err { OnErr result (counters.new.items ≡ counters.old.items) }
{
    match target.kind {
        DirectorKind::RoundRobin => {
            let next = next_behind(target.members.as_slice(), place);
            set_counter(counters, vcl, &target.name, next)
        }
        DirectorKind::One => Ok(()),
        DirectorKind::Fallback => Ok(()),
        DirectorKind::Random => Ok(()),
        DirectorKind::Hash => Ok(()),
    }
}

fn drop_health(health: &mut Vec<ForcedHealth>, vcl: u32, backend: &Text)
    ensures items { health.new.items ≡ without_health vcl backend.now health.old.items }
    ensures len { length health.new.items ≤ length health.old.items }
    ensures capacity { vec_capacity health.new ≡ vec_capacity health.old }
{
    health.retain(|forced| !is_health_of(vcl, backend, forced));
}

/// Puts the health before the others, where there is room for it.
fn put_health(health: &mut Vec<ForcedHealth>, forced: ForcedHealth)
    requires { length health.old.items < vec_capacity health.old }
    ensures { health.new.items ≡ forced ∷ health.old.items }
{
    let _ = health.insert(0, forced);
}

fn force_health(
    health: &mut Vec<ForcedHealth>,
    vcl: u32,
    backend: &Text,
    is_healthy: bool,
) -> Result<(), AllocError>
    ensures ok { OnOk result (health.new.items ≡ record { vcl = vcl; backend = backend.now; is_healthy = is_healthy } ∷ without_health vcl backend.now health.old.items) }
    ensures err { OnErr result (health.new.items ≡ health.old.items) }
{
    health.try_reserve(1)?;
    let forced = ForcedHealth {
        vcl,
        backend: backend.copy()?,
        is_healthy,
    };
    drop_health(health, vcl, backend);
    put_health(health, forced);
    Ok(())
}

/// Sets the health of a backend of the VCL.
pub(crate) fn set_health_of(
    health: &mut Vec<ForcedHealth>,
    vcl: u32,
    backend: &Text,
    given: Health,
) -> Result<(), AllocError>
    ensures ok { OnOk result (health.new.items ≡ with_health vcl backend.now given health.old.items) }
    ensures err { OnErr result (health.new.items ≡ health.old.items) }
{
    match given {
        Health::Auto => {
            drop_health(health, vcl, backend);
            Ok(())
        }
        Health::Healthy => force_health(health, vcl, backend, true),
        Health::Sick => force_health(health, vcl, backend, false),
    }
}
