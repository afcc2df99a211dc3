// What a text takes a backend or a director for.
ghost use Rattle.std.specs.Prelude.{◌≡◌, ◌<◌, All, [], IfOk, IfSome, OnOk, Some, length, position};
ghost use Rattle.std.specs.Str.{bytes_eq};
ghost use Rattle.vcl_runner.specs.Targets.{member, one_more, with_members, members_of, director_at, single, backend_at, director_named, backend_named, backend_or, target_named, default_target};

use directors::{DirectorKind, Member, Target};
use std::alloc::{AllocError, Global};
use units::{Sequence, Text};
use vcl_program::{Code, Director, Member as Placed};
use vcl_values::Backend;

/// The director of this name, or else the backend.
pub(crate) fn target_named(
    alloc: Global,
    code: &Code,
    name: &[u8],
) -> Result<Option<Target>, AllocError>
    requires { All (λ member. member.backend < length code.now.backends) code.now.members }
    ensures { IfOk result (λ target. target ≡ target_named code.now name.now) }
{
    match director_named(code.directors.as_slice(), name) {
        Some(number) => Ok(Some(director_at(alloc, code, number)?)),
        None => backend_or(alloc, code, backend_named(code.backends.as_slice(), name)),
    }
}

/// What is used where nothing was chosen.
pub(crate) fn default_target(alloc: Global, code: &Code) -> Result<Target, AllocError>
    requires { code.now.default_backend < length code.now.backends }
    ensures { IfOk result (λ target. target ≡ default_target code.now) }
{
    backend_at(alloc, code, code.default_backend)
}

fn director_named(directors: &[Director], name: &[u8]) -> Option<usize>
    ensures place { result ≡ position (director_named name.now) directors.now }
    ensures within { IfSome result (λ number. number < length directors.now) }
{
    directors
        .iter()
        .position(|director| director.name.bytes() == name)
}

fn backend_named(backends: &[Backend], name: &[u8]) -> Option<usize>
    ensures place { result ≡ position (backend_named name.now) backends.now }
    ensures within { IfSome result (λ number. number < length backends.now) }
{
    backends
        .iter()
        .position(|backend| backend.name.bytes() == name)
}

fn director_at(alloc: Global, code: &Code, number: usize) -> Result<Target, AllocError>
    requires within { number < length code.now.directors }
    requires members { All (λ member. member.backend < length code.now.backends) code.now.members }
    ensures { IfOk result (λ target. director_at code.now number ≡ Some target) }
{
    let Some(director) = code.directors.as_slice().get(number) else {
        unreachable!();
    };
    Ok(Target {
        kind: director.kind,
        name: director.name.copy()?,
        members: members_of(alloc, code, number)?,
    })
}

fn backend_or(
    alloc: Global,
    code: &Code,
    number: Option<usize>,
) -> Result<Option<Target>, AllocError>
    requires { IfSome number (λ k. k < length code.now.backends) }
    ensures { IfOk result (λ target. target ≡ backend_or code.now number) }
{
    match number {
        Some(number) => Ok(Some(backend_at(alloc, code, number)?)),
        None => Ok(None),
    }
}

fn backend_at(alloc: Global, code: &Code, number: usize) -> Result<Target, AllocError>
    requires { number < length code.now.backends }
    ensures { IfOk result (λ target. backend_at code.now number ≡ Some target) }
{
    let Some(backend) = code.backends.as_slice().get(number) else {
        unreachable!();
    };
    single(alloc, backend)
}

// A backend is its own one member.
fn single(alloc: Global, backend: &Backend) -> Result<Target, AllocError>
    ensures { IfOk result (λ target. target ≡ single backend.now) }
{
    let mut members = Sequence::new(alloc);
    members.push(member(backend, 1)?)?;
    Ok(Target {
        kind: DirectorKind::One,
        name: backend.name.copy()?,
        members,
    })
}

fn members_of(alloc: Global, code: &Code, number: usize) -> Result<Sequence<Member>, AllocError>
    requires { All (λ member. member.backend < length code.now.backends) code.now.members }
    ensures { IfOk result (λ members. members ≡ members_of code.now number) }
{
    with_members(
        alloc,
        code.backends.as_slice(),
        number,
        code.members.as_slice(),
    )
}

// The members of the director of this number, in their order.
fn with_members(
    alloc: Global,
    backends: &[Backend],
    number: usize,
    placed: &[Placed],
) -> Result<Sequence<Member>, AllocError>
    requires { All (λ member. member.backend < length backends.now) placed.now }
    ensures { IfOk result (λ members. members ≡ with_members backends.now number [] placed.now) }
{
    let mut out = Sequence::new(alloc);
    for one in placed {
        one_more(&mut out, backends, number, one)?;
    }
    Ok(out)
}

fn one_more(
    out: &mut Sequence<Member>,
    backends: &[Backend],
    number: usize,
    placed: &Placed,
) -> Result<(), AllocError>
    requires { placed.now.backend < length backends.now }
    ensures { OnOk result (out.new ≡ one_more backends.now number out.old placed.now) }
{
    if placed.director != number {
        return Ok(());
    }
    let Some(backend) = backends.get(placed.backend) else {
        unreachable!();
    };
    out.push(member(backend, placed.weight)?)?;
    Ok(())
}

fn member(backend: &Backend, weight: u32) -> Result<Member, AllocError>
    ensures { IfOk result (λ made. made ≡ member backend.now weight) }
{
    Ok(Member {
        name: backend.name.copy()?,
        weight: if backend.declared_none { 0 } else { weight },
    })
}
