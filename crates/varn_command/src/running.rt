// The top call.
ghost use Rattle.std.specs.Prelude.{◌≡◌, ◌≤◌, ◌⊎◌, option_map};
ghost use Rattle.cache_law.specs.declared.setting.Params.{Params as Limits};
ghost use Rattle.crew.specs.Hiring.{IsUnused};
ghost use Rattle.wire.specs.Telling.{told_by};
ghost use Rattle.vcl_library.specs.Functions.{std_functions};
ghost use Rattle.vcl_library.specs.Functions.{std_functions as replay_functions};
ghost use Rattle.varn_program.specs.Load.{IsLoaded, Loads};
ghost use Rattle.varn_program.specs.Run.{Ends, IsComplete};
ghost use Rattle.varn_program.specs.Words.{AsksReplay};
ghost use Rattle.varn_program.specs.declared.outcome.Status.TheVariants as replay_status;
ghost use Rattle.server.specs.Keeping.{tally_of};
ghost use Rattle.varn_serve.specs.Run.{CameTo, EndsAs, GaveFor, IsComplete as IsWhole, MayAskFor, RanBy, found_full, is_full_status};
ghost use Rattle.console_job.specs.Operating.{MayOperate};
ghost use Rattle.varn_audit.specs.Run.{Ends as EndsAudit};
ghost use Rattle.varn_audit.specs.declared.outcome.Status.TheVariants as audit_status;
ghost use Rattle.varn_command.specs.Asking.{Does, asks_audit as are_of_audit, command_of};
ghost use Rattle.wire.specs.Causes.{Rose};
ghost use Rattle.world.specs.Keeping.{MayAdd};

use crate::outcome::Outcome;
use command_line::{CommandName, LoadOptions, read_load, read_order};
use crew::Sign;
use lazy_core::LazyCore;
use server::Tally;
use std::alloc::Global;
use std::sync::Wait;
use std::thread::Threads;
use units::Text;
use varn_audit::run_audit;
use varn_program::{Job, do_with_std};
use varn_serve::serve_with_std;
use wire::{Dialer, Sink, Source};
use world::{Gate, Listener, World};

/// The cache of the program.
type Core = LazyCore;

/// The command of the first word, if it is one with an order, and its options.
pub(crate) fn command_of(words: &[Text]) -> Option<(CommandName, &[Text])>
    ensures { option_map (λ asked. (asked.0, asked.1.now)) result ≡ command_of words.now }
{
    match words {
        [command, options @ ..] => {
            if command.bytes() == b"serve".as_slice() {
                Some((CommandName::Serve, options))
            } else if command.bytes() == b"load".as_slice() {
                Some((CommandName::Load, options))
            } else {
                None
            }
        }
        [] => None,
    }
}

/// Whether the words ask for an audit: it has no options.
pub(crate) fn asks_audit(words: &[Text]) -> bool
    ensures { result ≡ are_of_audit words.now }
{
    match words {
        [word] => word.bytes() == b"audit".as_slice(),
        _ => false,
    }
}

/// Does what the words say: `serve` serves connections at the world's port, by the VCL of the world's file, and operators at the port of
/// the second world where the words name one; `load` plays the session of a number and writes its summary; `audit` tells what the
/// source's bytes are as a journal; other words are those of a replay of the source's session. Texts of VCL may call the functions
/// of the module `std`. The call may wait for good.
pub fn run<
    R: Threads + Wait + Sync,
    W: World + Send,
    V: World + Send,
    G: Gate + Sync,
    X: Sign + Sync,
    S: Source,
    K: Sink,
>(
    rt: &R,
    alloc: Global,
    words: &[Text],
    world: &mut W,
    operators: &mut V,
    gate: &G,
    sign: &X,
    source: &mut S,
    sink: &mut K,
) -> Outcome
where
    W::Listener: Send,
    W::Dialer: Sync,
    <W::Dialer as Dialer>::Link: Send,
    W::Clock: Sync,
    V::Listener: Send,
    V::Dialer: Sync,
    V::Clock: Sync,
    <V::Listener as Listener>::Link: Send,
    <V::Dialer as Dialer>::Link: Send,
    ensures { Does (record {
      replays = λ outcome. Ends replay_functions words.now (S.left source.old) (S.left source.new) (K.held sink.old) (K.held sink.new) outcome
          × ((params : Limits) → AsksReplay words.now params → IsComplete replay_functions params (S.left source.old) (K.held sink.old) (K.held sink.new) (Rose (S.faults source.old) (S.faults source.new) ⊎ Rose (K.faults sink.old) (K.faults sink.new)) outcome)
          × (outcome.status ≡ replay_status.ReadFault → Rose (S.faults source.old) (S.faults source.new))
          × (outcome.status ≡ replay_status.WriteFault → Rose (K.faults sink.old) (K.faults sink.new))
          × (world.new ≡ world.old) × (operators.new ≡ operators.old);
      loads = λ load outcome. Loads replay_functions load.seed load.steps (K.held sink.old) (K.held sink.new) outcome
          × IsLoaded replay_functions load.seed load.steps (Rose (K.faults sink.old) (K.faults sink.new)) outcome
          × (outcome.status ≡ replay_status.WriteFault → Rose (K.faults sink.old) (K.faults sink.new))
          × (source.new ≡ source.old) × (world.new ≡ world.old) × (operators.new ≡ operators.old);
      serves = λ order served. CameTo (RanBy (IsUnused W.Dialer.talks W.Dialer.dial_faults W.Dialer.read_faults W.Dialer.write_faults W.Clock.readings W.Clock.words)
          (told_by W.Dialer.Link.flow W.Dialer.Link.read_faults W.Dialer.Link.write_faults W.Dialer.Link.peer W.Dialer.Link.is_open) W.Dialer.talks W.Dialer.dial_faults W.Clock.readings W.Clock.words (told_by W.Listener.Link.flow W.Listener.Link.read_faults W.Listener.Link.write_faults W.Listener.Link.peer W.Listener.Link.is_open)
          (λ tally events. tally ≡ tally_of events) (W.kits world.old) (W.kits world.new)) (W.kits world.old) (W.kits world.new)
          (λ began history port before after talks. MayOperate std_functions (V.files operators.old) (told_by V.Listener.Link.flow V.Listener.Link.read_faults V.Listener.Link.write_faults V.Listener.Link.peer V.Listener.Link.is_open) V.Clock.readings began history port before after talks)
          (record { links = V.links operators.old; kits = V.kits operators.old; given = V.given operators.old; shelf_faults = V.shelf_faults operators.old })
          (record { links = V.links operators.new; kits = V.kits operators.new; given = V.given operators.new; shelf_faults = V.shelf_faults operators.new })
          (W.files world.old) std_functions order served
          × EndsAs (record {
            read_failed = Rose (W.shelf_faults world.old) (W.shelf_faults world.new);
            listen_failed = Rose (W.listen_faults world.old) (W.listen_faults world.new) ⊎ Rose (V.listen_faults operators.old) (V.listen_faults operators.new);
            write_failed = Rose (K.faults sink.old) (K.faults sink.new);
            ended = W.ended world.new;
            held = K.held sink.old;
            holds = K.held sink.new;
          }) (W.files world.old) std_functions order served served.status
          × IsWhole (record {
            read_failed = Rose (W.shelf_faults world.old) (W.shelf_faults world.new);
            listen_failed = Rose (W.listen_faults world.old) (W.listen_faults world.new) ⊎ Rose (V.listen_faults operators.old) (V.listen_faults operators.new);
            write_failed = Rose (K.faults sink.old) (K.faults sink.new);
            ended = W.ended world.new;
            held = K.held sink.old;
            holds = K.held sink.new;
          }) (W.files world.old) std_functions order served
          × (served.connections ≤ order.conns)
          × (is_full_status served.status ≡ found_full served)
          × MayAdd (W.ports world.old) (W.ports world.new) order.port
          × MayAskFor (V.ports operators.old) (V.ports operators.new) order.cli
          × GaveFor (W.given world.old) (W.given world.new) served.connections
          × (source.new ≡ source.old);
      audits = λ audited. EndsAudit (S.left source.old) (S.left source.new) (K.held sink.old) (K.held sink.new) audited
          × (audited.status ≡ audit_status.ReadFault → Rose (S.faults source.old) (S.faults source.new))
          × (audited.status ≡ audit_status.WriteFault → Rose (K.faults sink.old) (K.faults sink.new))
          × (world.new ≡ world.old) × (operators.new ≡ operators.old);
      nothing = (source.new ≡ source.old) × (sink.new ≡ sink.old) × (world.new ≡ world.old) × (operators.new ≡ operators.old);
    }) words.now result }
{
    if asks_audit(words) {
        return Outcome::of_audited(alloc, run_audit(alloc, source, sink));
    }
    match command_of(words) {
        Some((CommandName::Serve, options)) => match read_order(options) {
            Ok(order) => {
                let served = serve_with_std::<R, W, V, G, K, Tally, X>(
                    rt, alloc, &order, world, operators, gate, sign, sink,
                );
                Outcome::of_served(alloc, served)
            }
            Err(error) => Outcome::of_unasked(alloc, error),
        },
        Some((CommandName::Load, options)) => match read_load(options) {
            Ok(LoadOptions { seed, steps }) => {
                let job = Job::Load { seed, steps };
                let played = do_with_std::<Core, S, K>(alloc, &job, source, sink);
                Outcome::of_played(alloc, played)
            }
            Err(error) => Outcome::of_unasked(alloc, error),
        },
        None => {
            let played = varn_program::run::<Core, S, K>(alloc, words, source, sink);
            Outcome::of_played(alloc, played)
        }
    }
}
