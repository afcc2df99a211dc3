// Rounds from their Begin on, one want after another. A row has how `vcl_recv` ends, the word that is drawn, and what the round is
// given in turn.
ghost use Rattle.std.specs.Prelude.{OnOk};
ghost use Rattle.vcl_scripts.specs.Scripts.{IsRun, Fits};
ghost use Rattle.round_task.specs.Standing.{MayGoOn};

use crate::givens::given;
use crate::heads::{PEER, request};
use crate::round_names::push_want;
use directors::{DirectorKind, Target};
use round_task::Round;
use std::alloc::{AllocError, Global};
use units::{Sequence, Text};
use vcl_scripts::{Route, Script, ScriptRun};

fn route(word: &str) -> Route {
    match word {
        "pass" => Route::Pass,
        "purge" => Route::Purge,
        "restart" => Route::Restart,
        _ => Route::Hash,
    }
}

fn target(alloc: Global) -> Result<Target, AllocError> {
    Ok(Target {
        kind: DirectorKind::Random,
        name: Text::of(alloc, b"default")?,
        members: Sequence::new(alloc),
    })
}

// A script whose `vcl_recv` wants a ban, where it is asked for, and a purge of keys, and ends so.
fn script(alloc: Global, word: &str) -> Result<Script, AllocError> {
    let ban = if word == "ban" {
        "obj.status == 404"
    } else {
        ""
    };
    Ok(Script {
        ban: Text::of(alloc, ban.as_bytes())?,
        keys: Text::of(alloc, b"a")?,
        route: route(word),
        target: target(alloc)?,
    })
}

/// What is wanted in turn, by its names.
pub fn round_shown(alloc: Global, row: &str) -> Result<String, AllocError> {
    let (route, rest) = row.split_once(' ').unwrap_or((row, ""));
    let (word, givens) = rest.split_once(' ').unwrap_or((rest, ""));
    let drawn = match word {
        "drawn" => Some(5),
        _ => None,
    };
    let script = script(alloc, route)?;
    play(alloc, &script, drawn, givens)
}

// Adds the name of what is wanted next.
fn push_next(
    alloc: Global,
    out: &mut String,
    script: &Script,
    drawn: Option<u64>,
    round: &mut Round<ScriptRun>,
    word: &str,
) -> Result<(), AllocError>
    requires { MayGoOn IsRun (λ run answer. Fits run.stage answer) round.old.place }
    ensures { OnOk result (MayGoOn IsRun (λ run answer. Fits run.stage answer) round.new.place) }
{
    let given = given(alloc, word)?;
    let want = round.resume(alloc, script, drawn, given)?;
    push_want(out, &want)
}

fn play(
    alloc: Global,
    script: &Script,
    drawn: Option<u64>,
    words: &str,
) -> Result<String, AllocError> {
    let request = request(alloc, b"GET /a HTTP/1.1\r\n\r\n", b"")?;
    let mut round: Round<ScriptRun> = Round::start(request, PEER);
    let mut out = String::new(alloc);
    'words: for word in words.split(' ') {
        push_next(alloc, &mut out, script, drawn, &mut round, word)?;
    }
    Ok(out)
}
