// How words are read as a ban, and what the ban matches.
use crate::lines::words_of;
use ban_expr::{BanError, Prepared, object_only, one_ban, prepare, read, test};
use ban_lurker::{BanRun, Chore, Verdict, judge};
use cache_law::{Ban, Issued, ObjectView};
use core_rows::{object, view};
use std::alloc::{AllocError, Global};
use units::{Sequence, Shared};

// When the bans are issued.
const ISSUED: u64 = 11_000;

const REQUEST: &str = "url=/a Q:1 q:2";

// A response that the bans find ten seconds old, with fifty seconds of its lifetime left.
const RESPONSE: &str =
    "status=200 body=hello origin=1000 ttl=60000 grace=10000 keep=5000 X:a x:b Empty:";

const MARKER: &str = "hit_for_miss status=503 origin=12000 ttl=0";

/// What is said of a ban by its words: how many conditions it has, or why it is none; or what it matches.
pub fn ban_shown(alloc: Global, word: &str, row: &str) -> Result<String, AllocError> {
    match ban_of(alloc, row) {
        Ok(ban) => matches_shown(alloc, word, ban),
        Err(error) => format!(in alloc; "{error:?}"),
    }
}

fn ban_of(alloc: Global, row: &str) -> Result<Ban, BanError> {
    let words = words_of(alloc, row)?;
    one_ban(&words);
    read(alloc, &words)
}

fn matches_shown(alloc: Global, word: &str, ban: Ban) -> Result<String, AllocError> {
    match word {
        "ban_read" => {
            let count = ban.conditions.as_slice().len();
            format!(in alloc; "{count} conditions")
        }
        "ban_request" => request_shown(alloc, &ban),
        "judge" => judged_shown(alloc, ban),
        _ => objects_shown(alloc, ban),
    }
}

// Whether the ban looks at objects alone, and whether it matches the response for the request.
fn request_shown(alloc: Global, ban: &Ban) -> Result<String, AllocError> {
    let matched = matches_request(alloc, ban)?;
    let alone = object_only(ban);
    format!(in alloc; "{alone} {matched}")
}

fn matches_request(alloc: Global, ban: &Ban) -> Result<bool, AllocError> {
    let request = view(alloc, REQUEST)?;
    let response = object(alloc, RESPONSE)?;
    test(alloc, ban, ISSUED, &response, Some(&request))
}

// Whether the ban looks at objects alone, and whether it matches the response and the marker, once it was made ready.
fn objects_shown(alloc: Global, ban: Ban) -> Result<String, AllocError> {
    let ready = prepare(alloc, &Shared::new(alloc, ban)?)?;
    let of_response = matches_object(alloc, &ready, RESPONSE)?;
    let of_marker = matches_object(alloc, &ready, MARKER)?;
    let alone = object_only(ready.ban());
    format!(in alloc; "{alone} {of_response} {of_marker}")
}

fn matches_object(alloc: Global, ready: &Prepared, words: &str) -> Result<bool, AllocError> {
    let object = object(alloc, words)?;
    ready.test(alloc, ISSUED, &object, None)
}

// What is found of the response, with the chore's numbers, and of the marker; or that the ban is on requests.
fn judged_shown(alloc: Global, ban: Ban) -> Result<String, AllocError> {
    let ban = Shared::new(alloc, ban)?;
    let of_response = verdict_on(alloc, &ban, RESPONSE)?;
    let of_marker = verdict_on(alloc, &ban, MARKER)?;
    match (of_response, of_marker) {
        (Some(response), Some(marker)) => {
            let Verdict {
                object,
                mark,
                upto,
                ..
            } = response;
            format!(in alloc; "{object} {mark} {upto} {} {}", response.dead, marker.dead)
        }
        _ => format!(in alloc; "on requests"),
    }
}

fn verdict_on(
    alloc: Global,
    ban: &Shared<Ban>,
    words: &str,
) -> Result<Option<Verdict>, AllocError> {
    let mut issued = Vec::with_capacity(alloc, 1)?;
    issued.push(Issued {
        number: 3,
        moment: ISSUED,
        ban: ban.copy()?,
    })?;
    let Some(bans) = BanRun::of(Sequence::from_vec(issued)) else {
        return Ok(None);
    };
    let view = ObjectView {
        number: 7,
        hits: 0,
        object: object(alloc, words)?,
    };
    let chore = Chore {
        object: 7,
        mark: 2,
        upto: 3,
        view,
        bans,
    };
    Ok(Some(judge(alloc, chore)?))
}
