// The programs of a connection's rounds: scripts that the texts of VCLs stand for.
ghost use Rattle.std.specs.Prelude.{◌≡◌, IfOk, None, codes};
ghost use Rattle.server_tests.specs.Scripted.{one_target, route_of, script_of};

use directors::{DirectorKind, Member, Target};
use http_heads::Backend;
use std::alloc::{AllocError, Global};
use units::{Sequence, Shared, Text};
use vcl_runs::Programs;
use vcl_scripts::{Route, Script, ScriptRun};
use wire::DialLimits;

/// Makes the script of each text that it is given.
#[derive(Drop)]
pub struct Scripts;

impl Programs<ScriptRun> for Scripts {
    ghost use Rattle.server_tests.specs.Scripted.{one-meaning};

    ghost of_text = { λ text script. script ≡ script_of text };

    ghost backends = { λ _ name. record { name = name; host = codes "b"; port = codes "80" } };

    ghost times = { λ _ _. record { connecting = 1000; first_byte = 1000; between_bytes = 1000; whole = None; most_open = None } };

    ghost one_meaning = { λ text one other p q. one-meaning text one other p q };

    fn program(
        &mut self,
        alloc: Global,
        vcl: u32,
        text: &Text,
    ) -> Result<Shared<Script>, AllocError> {
        Shared::new(alloc, script(alloc, text.bytes())?)
    }

    fn backend(alloc: Global, program: &Script, name: &Text) -> Result<Backend, AllocError> {
        Ok(Backend {
            name: name.copy()?,
            host: Text::of(alloc, b"b")?,
            port: Text::of(alloc, b"80")?,
        })
    }

    fn waiting(_program: &Script, _name: &Text) -> DialLimits {
        DialLimits {
            connecting: 1000,
            first_byte: 1000,
            between_bytes: 1000,
            whole: None,
            most_open: None,
        }
    }
}

fn target(alloc: Global) -> Result<Target, AllocError>
    ensures { IfOk result (λ target. target ≡ one_target) }
{
    let member = Member {
        name: Text::of(alloc, b"b")?,
        weight: 1,
    };
    let mut members = Sequence::new(alloc);
    members.push(member)?;
    Ok(Target {
        kind: DirectorKind::Random,
        name: Text::of(alloc, b"b")?,
        members,
    })
}

fn route(text: &[u8]) -> Route
    ensures { result ≡ route_of text.now }
{
    match text {
        [] => Route::Hash,
        _ => Route::Pass,
    }
}

fn script(alloc: Global, text: &[u8]) -> Result<Script, AllocError>
    ensures { IfOk result (λ script. script ≡ script_of text.now) }
{
    Ok(Script {
        ban: Text::of(alloc, b"")?,
        keys: Text::of(alloc, b"")?,
        route: route(text),
        target: target(alloc)?,
    })
}
