// A round, led.
ghost use Rattle.std.specs.Prelude.{◌≡◌, ◌≤◌, [], true, false, Option, IfOk, IfErr, OnOk, OnErr};
ghost use Rattle.wire.specs.Causes.{Rose};
ghost use Rattle.wire.specs.Flow.{Flow, Moves};
ghost use Rattle.wire.specs.Telling.{told_by, dialer_told_by};
ghost use Rattle.turnstile.specs.Handles.{known};
ghost use Rattle.shared_cache.specs.Passes.{IsPassOf};
ghost use Rattle.shared_cache.specs.Sharing.{SeesLegal};
ghost use Rattle.cache_law.specs.declared.call.Call.TheVariants.{Begin};
ghost use Rattle.round_lead.specs.Seen.{has_open};
ghost use Rattle.round_lead.specs.Things.{text_told};
ghost use Rattle.round_lead.specs.Tapes.{ToldIn, WasDrawn, Went};
ghost use Rattle.round_lead.specs.Steps.{CanClose, IsFirst, stood};
ghost use Rattle.round_lead.specs.Onward.{Breaks, Whole};
ghost use Rattle.round_lead.specs.Leading.{Began, kept};
ghost use Rattle.round_lead.specs.Endings.{answered_so};
ghost use Rattle.round_lead.specs.Responses.{LedBy};
ghost use Rattle.vcl_runs.specs.Languages.{language_of};

use crate::calling::{call_on, close};
use crate::cut::{Cut, cut_at, ended_by};
use crate::following::follow;
use crate::keeping::{Progress, Round};
use crate::{Shift, Site};
use cache_law::rounds::{Given, Request};
use cache_law::{CacheCore, Call, Reply, Told};
use connection::Answered;
use round_task::Round as Machine;
use std::alloc::{AllocError, Global};
use std::sync::Wait;
use units::{Copied, Shared};
use vcl_runs::{Programs, Runner};
use wire::{Clock, Dialer, Link};
use world::Gate;

// The request again, for the round.
fn copied(alloc: Global, request: &Request) -> Result<Request, AllocError>
    ensures { IfOk result (λ copy. copy ≡ request.now) }
{
    Ok(Request {
        head: request.head.copied(alloc)?,
        body: request.body.copy()?,
    })
}

// The round begins in the cache. Its first word is drawn, as for each of its wants.
fn begin<R: Wait, C: CacheCore, G: Gate, D: Dialer, K: Clock, P>(
    site: &Site<'_, R, C, G>,
    shift: &mut Shift<D, K, P>,
    progress: &mut Progress,
) -> Result<Told, Cut>
    requires pass { IsPassOf site.now.shared.now shift.old.pass }
    requires idle { has_open (known shift.old.pass) ≡ false }
    requires first { IsFirst progress.old }
    ensures pass { IsPassOf site.now.shared.now shift.new.pass }
    ensures legal { SeesLegal (known shift.old.pass) → SeesLegal (known shift.new.pass) }
    ensures opened { has_open (known shift.new.pass) ≡ progress.new.is_open }
    ensures room { CanClose progress.new }
    ensures opens { OnOk result (progress.new.is_open ≡ true) }
    ensures idle { OnErr result (progress.new.is_open ≡ false) }
    ensures programs { shift.new.programs ≡ shift.old.programs }
    ensures began { (over : Option Flow) → Began (told_by D.Link.flow D.Link.read_faults D.Link.write_faults D.Link.peer D.Link.is_open) (stood D.talks D.dial_faults K.readings K.words shift.old over progress.old) (stood D.talks D.dial_faults K.readings K.words shift.new over progress.new) result }
{
    let _ = shift.kit.clock.word();
    match call_on(
        site,
        &mut shift.pass,
        &mut shift.kit.clock,
        progress,
        Call::Begin,
    ) {
        Ok(told) => Ok(told),
        Err(error) => Err(cut_at(error)),
    }
}

// The program of the VCL that the round's Begin was told.
fn program_of<P: Programs<M>, M: Runner>(
    alloc: Global,
    programs: &mut P,
    reply: &Reply,
) -> Result<Shared<M::Program>, AllocError>
    ensures { IfOk result (λ program. P.of_text (text_told reply.now) program) }
{
    match reply {
        Reply::Began {
            number: _,
            vcl,
            text,
        } => programs.program(alloc, *vcl, text),
        _ => Err(AllocError),
    }
}

// The round behind its Begin under this program, up to its End.
fn run_on<R: Wait, C: CacheCore, G: Gate, D: Dialer, K: Clock, P: Programs<M>, M: Runner, L: Link>(
    site: &Site<'_, R, C, G>,
    shift: &mut Shift<D, K, P>,
    link: &mut L,
    progress: &mut Progress,
    request: Request,
    peer: [u8; 4],
    told: Told,
    program: &M::Program,
) -> Result<(), Cut>
    requires ran { P.of_text (text_told told.reply) program.now }
    requires pass { IsPassOf site.now.shared.now shift.old.pass }
    requires opened { has_open (known shift.old.pass) ≡ true }
    requires is_open { progress.old.is_open ≡ true }
    requires room { CanClose progress.old }
    ensures whole { OnOk result (Whole (language_of P.of_text M.turns M.targets M.default_of P.backends) (told_by D.Link.flow D.Link.read_faults D.Link.write_faults D.Link.peer D.Link.is_open) request peer told
        (stood D.talks D.dial_faults K.readings K.words shift.old (L.flow link.old) progress.old) (stood D.talks D.dial_faults K.readings K.words shift.new (L.flow link.new) progress.new)) }
    ensures cut { IfErr result (Breaks (language_of P.of_text M.turns M.targets M.default_of P.backends) (told_by D.Link.flow D.Link.read_faults D.Link.write_faults D.Link.peer D.Link.is_open) request peer told
        (stood D.talks D.dial_faults K.readings K.words shift.old (L.flow link.old) progress.old) (stood D.talks D.dial_faults K.readings K.words shift.new (L.flow link.new) progress.new)) }
    ensures pass { IsPassOf site.now.shared.now shift.new.pass }
    ensures opened { has_open (known shift.new.pass) ≡ true }
    ensures is_open { progress.new.is_open ≡ true }
    ensures room { CanClose progress.new }
    ensures failed { IfErr result (λ cut. cut ≡ Cut.WriteFault → Rose (L.write_faults link.old) (L.write_faults link.new)) }
    ensures later { L.write_faults link.old ≤ L.write_faults link.new }
    ensures other { L.read_faults link.new ≡ L.read_faults link.old }
    ensures peer { L.peer link.new ≡ L.peer link.old }
{
    let mut machine = Machine::start(request, peer);
    let word = shift.kit.clock.word();
    match machine.resume(site.alloc, program, Some(word), Given::Reply(told)) {
        Ok(mut want) => follow::<R, C, G, D, K, P, M, L>(
            site,
            shift,
            link,
            progress,
            &mut machine,
            program,
            &mut want,
        ),
        Err(_) => Err(Cut::NoMemory),
    }
}

// The round behind its Begin, up to its End.
fn go_on<R: Wait, C: CacheCore, G: Gate, D: Dialer, K: Clock, P: Programs<M>, M: Runner, L: Link>(
    site: &Site<'_, R, C, G>,
    shift: &mut Shift<D, K, P>,
    link: &mut L,
    progress: &mut Progress,
    request: Request,
    peer: [u8; 4],
    told: Told,
) -> Result<(), Cut>
where
    M::Program: Drop,
    requires pass { IsPassOf site.now.shared.now shift.old.pass }
    requires opened { has_open (known shift.old.pass) ≡ true }
    requires is_open { progress.old.is_open ≡ true }
    requires room { CanClose progress.old }
    ensures whole { OnOk result (Whole (language_of P.of_text M.turns M.targets M.default_of P.backends) (told_by D.Link.flow D.Link.read_faults D.Link.write_faults D.Link.peer D.Link.is_open) request peer told
        (stood D.talks D.dial_faults K.readings K.words shift.old (L.flow link.old) progress.old) (stood D.talks D.dial_faults K.readings K.words shift.new (L.flow link.new) progress.new)) }
    ensures cut { IfErr result (Breaks (language_of P.of_text M.turns M.targets M.default_of P.backends) (told_by D.Link.flow D.Link.read_faults D.Link.write_faults D.Link.peer D.Link.is_open) request peer told
        (stood D.talks D.dial_faults K.readings K.words shift.old (L.flow link.old) progress.old) (stood D.talks D.dial_faults K.readings K.words shift.new (L.flow link.new) progress.new)) }
    ensures pass { IsPassOf site.now.shared.now shift.new.pass }
    ensures opened { has_open (known shift.new.pass) ≡ true }
    ensures is_open { progress.new.is_open ≡ true }
    ensures room { CanClose progress.new }
    ensures failed { IfErr result (λ cut. cut ≡ Cut.WriteFault → Rose (L.write_faults link.old) (L.write_faults link.new)) }
    ensures later { L.write_faults link.old ≤ L.write_faults link.new }
    ensures other { L.read_faults link.new ≡ L.read_faults link.old }
    ensures peer { L.peer link.new ≡ L.peer link.old }
{
    match program_of::<P, M>(site.alloc, &mut shift.programs, &told.reply) {
        Ok(program) => run_on::<R, C, G, D, K, P, M, L>(
            site, shift, link, progress, request, peer, told, &*program,
        ),
        Err(_) => Err(Cut::NoMemory),
    }
}

// How a round ended that was led to its End, or was cut short.
fn answered(led: Result<(), Cut>, closes: bool) -> Answered
    ensures { result ≡ answered_so led closes }
{
    match led {
        Ok(()) if closes => Answered::Closes,
        Ok(()) => Answered::Kept,
        Err(cut) => ended_by(cut),
    }
}

// The round, from its Begin on. It is ended in every case.
fn make_round<
    R: Wait,
    C: CacheCore,
    G: Gate,
    D: Dialer,
    K: Clock,
    P: Programs<M>,
    M: Runner,
    L: Link,
>(
    site: &Site<'_, R, C, G>,
    shift: &mut Shift<D, K, P>,
    link: &mut L,
    progress: &mut Progress,
    request: Request,
    peer: [u8; 4],
) -> Answered
where
    M::Program: Drop,
    requires pass { IsPassOf site.now.shared.now shift.old.pass }
    requires idle { has_open (known shift.old.pass) ≡ false }
    requires first { IsFirst progress.old }
    requires legal { SeesLegal (known shift.old.pass) }
    ensures led { LedBy (language_of P.of_text M.turns M.targets M.default_of P.backends)
        (WasDrawn (K.words shift.old.kit.clock) (K.words shift.new.kit.clock)) (ToldIn (K.readings shift.old.kit.clock) (K.readings shift.new.kit.clock)) (told_by D.Link.flow D.Link.read_faults D.Link.write_faults D.Link.peer D.Link.is_open)
        (known shift.old.pass) (known shift.new.pass) (dialer_told_by D.talks D.dial_faults shift.old.kit.dialer) (dialer_told_by D.talks D.dial_faults shift.new.kit.dialer) (kept request peer progress.new) result }
    ensures moves { Moves (L.flow link.old) (L.flow link.new) [] progress.new.sent.items }
    ensures clock { Went (K.readings shift.old.kit.clock) (K.readings shift.new.kit.clock) × Went (K.words shift.old.kit.clock) (K.words shift.new.kit.clock) }
    ensures pass { IsPassOf site.now.shared.now shift.new.pass }
    ensures idle { has_open (known shift.new.pass) ≡ false }
    ensures legal { SeesLegal (known shift.new.pass) }
    ensures failed { result ≡ Answered.WriteFault → Rose (L.write_faults link.old) (L.write_faults link.new) }
    ensures later { L.write_faults link.old ≤ L.write_faults link.new }
    ensures other { L.read_faults link.new ≡ L.read_faults link.old }
    ensures peer { L.peer link.new ≡ L.peer link.old }
{
    match begin(site, shift, progress) {
        Ok(told) => {
            let led = go_on::<R, C, G, D, K, P, M, L>(
                site, shift, link, progress, request, peer, told,
            );
            close(site, &mut shift.pass, &mut shift.kit.clock, progress);
            answered(led, progress.closes)
        }
        Err(cut) => ended_by(cut),
    }
}

// The round, where there is memory for its request.
fn try_round<
    R: Wait,
    C: CacheCore,
    G: Gate,
    D: Dialer,
    K: Clock,
    P: Programs<M>,
    M: Runner,
    L: Link,
>(
    site: &Site<'_, R, C, G>,
    shift: &mut Shift<D, K, P>,
    link: &mut L,
    progress: &mut Progress,
    request: &Request,
    peer: [u8; 4],
) -> Answered
where
    M::Program: Drop,
    requires pass { IsPassOf site.now.shared.now shift.old.pass }
    requires idle { has_open (known shift.old.pass) ≡ false }
    requires first { IsFirst progress.old }
    requires legal { SeesLegal (known shift.old.pass) }
    ensures led { LedBy (language_of P.of_text M.turns M.targets M.default_of P.backends)
        (WasDrawn (K.words shift.old.kit.clock) (K.words shift.new.kit.clock)) (ToldIn (K.readings shift.old.kit.clock) (K.readings shift.new.kit.clock)) (told_by D.Link.flow D.Link.read_faults D.Link.write_faults D.Link.peer D.Link.is_open)
        (known shift.old.pass) (known shift.new.pass) (dialer_told_by D.talks D.dial_faults shift.old.kit.dialer) (dialer_told_by D.talks D.dial_faults shift.new.kit.dialer) (kept request.now peer progress.new) result }
    ensures moves { Moves (L.flow link.old) (L.flow link.new) [] progress.new.sent.items }
    ensures clock { Went (K.readings shift.old.kit.clock) (K.readings shift.new.kit.clock) × Went (K.words shift.old.kit.clock) (K.words shift.new.kit.clock) }
    ensures pass { IsPassOf site.now.shared.now shift.new.pass }
    ensures idle { has_open (known shift.new.pass) ≡ false }
    ensures legal { SeesLegal (known shift.new.pass) }
    ensures failed { result ≡ Answered.WriteFault → Rose (L.write_faults link.old) (L.write_faults link.new) }
    ensures later { L.write_faults link.old ≤ L.write_faults link.new }
    ensures other { L.read_faults link.new ≡ L.read_faults link.old }
    ensures peer { L.peer link.new ≡ L.peer link.old }
{
    match copied(site.alloc, request) {
        Ok(asked) => make_round::<R, C, G, D, K, P, M, L>(site, shift, link, progress, asked, peer),
        Err(_) => Answered::NoMemory,
    }
}

/// Leads a round of the request from the peer over the shared cache, and tells what is kept of it and how it ended. The caller has
/// no open round before it, and none behind it.
pub fn lead<
    R: Wait,
    C: CacheCore,
    G: Gate,
    D: Dialer,
    K: Clock,
    P: Programs<M>,
    M: Runner,
    L: Link,
>(
    site: &Site<'_, R, C, G>,
    shift: &mut Shift<D, K, P>,
    link: &mut L,
    request: Request,
    peer: [u8; 4],
) -> (Round, Answered)
where
    M::Program: Drop,
    requires pass { IsPassOf site.now.shared.now shift.old.pass }
    requires idle { has_open (known shift.old.pass) ≡ false }
    requires legal { SeesLegal (known shift.old.pass) }
    ensures led { LedBy (language_of P.of_text M.turns M.targets M.default_of P.backends)
        (WasDrawn (K.words shift.old.kit.clock) (K.words shift.new.kit.clock)) (ToldIn (K.readings shift.old.kit.clock) (K.readings shift.new.kit.clock)) (told_by D.Link.flow D.Link.read_faults D.Link.write_faults D.Link.peer D.Link.is_open)
        (known shift.old.pass) (known shift.new.pass) (dialer_told_by D.talks D.dial_faults shift.old.kit.dialer) (dialer_told_by D.talks D.dial_faults shift.new.kit.dialer) result.0 result.1 }
    ensures moves { Moves (L.flow link.old) (L.flow link.new) [] result.0.sent.items }
    ensures request { (result.0.request ≡ request) × (result.0.peer ≡ peer) }
    ensures clock { Went (K.readings shift.old.kit.clock) (K.readings shift.new.kit.clock) × Went (K.words shift.old.kit.clock) (K.words shift.new.kit.clock) }
    ensures pass { IsPassOf site.now.shared.now shift.new.pass }
    ensures idle { has_open (known shift.new.pass) ≡ false }
    ensures legal { SeesLegal (known shift.new.pass) }
    ensures failed { result.1 ≡ Answered.WriteFault → Rose (L.write_faults link.old) (L.write_faults link.new) }
    ensures later { L.write_faults link.old ≤ L.write_faults link.new }
    ensures other { L.read_faults link.new ≡ L.read_faults link.old }
    ensures peer { L.peer link.new ≡ L.peer link.old }
{
    let mut progress = Progress::new(site.alloc);
    let answered = try_round::<R, C, G, D, K, P, M, L>(
        site,
        shift,
        link,
        &mut progress,
        &request,
        peer,
    );
    (progress.kept(request, peer), answered)
}
