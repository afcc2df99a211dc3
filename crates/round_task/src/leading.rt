// How what is given leads on to where something is wanted.
ghost use Rattle.std.specs.Prelude.{◌≡◌, [], ◌∷◌, List, Option, Some, ℕ, IfOk};
ghost use Rattle.cache_law.specs.declared.rounds.Given.{Given as Gift};
ghost use Rattle.cache_law.specs.declared.rounds.Order.{Order as Ordered};
ghost use Rattle.client_graph.specs.declared.round.Next.{Next as Opened};
ghost use Rattle.client_task.specs.Standing.{StandsAt as ClientStands, MayGoOn as ClientMay};
ghost use Rattle.fetch_graph.specs.Opening.{opening};
ghost use Rattle.vcl_runs.specs.Evaluators.{evaluator};
ghost use Rattle.fetch_task.specs.Standing.{StandsAt as FetchStands};
ghost use Rattle.round_task.specs.Rounds.{BackToClient, Opening, ToClient, ToFetch, after_begin, flow_of, for_client, word_of as word_for};
ghost use Rattle.round_task.specs.Standing.{MayGoOn, SettlesAt};

use crate::want::{Made, Passed, make, pass};
use crate::{Place, Want};
use cache_law::Reply;
use cache_law::rounds::{FetchOutcome, Given, Order, Request};
use client_task::Client;
use fetch_task::Fetch;
use std::alloc::{AllocError, Global};
use units::out_of_memory;
use vcl_runs::Runner;

/// A place, and what is wanted there.
#[derive(Drop)]
pub(crate) struct Settled<M> {
    pub place: Place<M>,
    pub want: Want,
}

/// Nothing more comes. What was held is let go.
pub(crate) fn over<M, V: Drop>(_held: V) -> Settled<M>
    ensures { result ≡ record { place = Place.Over; want = Want.Done } }
{
    Settled {
        place: Place::Over,
        want: Want::Done,
    }
}

// The fetch that the client waited for came to this.
fn back_to_client<M: Runner>(
    alloc: Global,
    program: &M::Program,
    mut client: Client<M>,
    outcome: FetchOutcome,
) -> Result<Settled<M>, AllocError>
    requires may { ClientMay (λ run ran. M.stands run program.now ran) M.fits client.place }
    ensures settles { IfOk result (λ settled. (drawn : Option ℕ) (start : Opened) (givens : List Gift)
        → ClientStands (for_client (evaluator M.turns M.targets M.default_of program.now)) (λ run ran. M.stands run program.now ran) M.fits start givens client.place
        → SettlesAt (evaluator M.turns M.targets M.default_of program.now) (λ run ran. M.stands run program.now ran) M.fits drawn (BackToClient start (Given.Fetched outcome ∷ givens)) settled) }
    ensures goes_on { IfOk result (λ settled. MayGoOn (λ run ran. M.stands run program.now ran) M.fits settled.place) }
{
    let Ok(want) = client.resume(alloc, program, Given::Fetched(outcome)) else {
        return Err(out_of_memory(client));
    };
    let passed = pass(want);
    match passed {
        Passed::Wanted(want) => Ok(Settled {
            place: Place::Client(client),
            want,
        }),
        Passed::Ordered(order) => Ok(over((order, client))),
    }
}

fn word_of(drawn: Option<u64>, number: u64) -> u64
    ensures { result ≡ word_for drawn number }
{
    match drawn {
        Some(word) => word,
        None => number,
    }
}

/// The client's fetch of this number is given this.
pub(crate) fn to_fetch<M: Runner>(
    alloc: Global,
    program: &M::Program,
    drawn: Option<u64>,
    client: Client<M>,
    number: u64,
    mut fetch: Box<Fetch>,
    given: Given,
) -> Result<Settled<M>, AllocError>
    requires may { ClientMay (λ run ran. M.stands run program.now ran) M.fits client.place }
    ensures settles { IfOk result (λ settled. (start : Opened) (givens : List Gift) (order : Ordered) (told : List Gift)
        → ClientStands (for_client (evaluator M.turns M.targets M.default_of program.now)) (λ run ran. M.stands run program.now ran) M.fits start givens client.place
        → number ≡ order.number
        → FetchStands (evaluator M.turns M.targets M.default_of program.now) (opening order) told fetch.value.place
        → SettlesAt (evaluator M.turns M.targets M.default_of program.now) (λ run ran. M.stands run program.now ran) M.fits drawn (ToFetch start givens order (given ∷ told)) settled) }
    ensures goes_on { IfOk result (λ settled. MayGoOn (λ run ran. M.stands run program.now ran) M.fits settled.place) }
{
    let word = word_of(drawn, number);
    let Ok(want) = fetch.resume::<M>(alloc, program, word, given) else {
        return Err(out_of_memory((client, fetch)));
    };
    let made = make(number, want);
    match made {
        Made::Wanted(want) => Ok(Settled {
            place: Place::Fetch {
                client,
                number,
                fetch,
            },
            want,
        }),
        Made::Over(outcome) => {
            drop(fetch);
            back_to_client(alloc, program, client, outcome)
        }
    }
}

fn start_fetch(alloc: Global, order: Order) -> Result<Box<Fetch>, AllocError>
    ensures { IfOk result (λ fetch. fetch.value.place ≡ Some (opening order)) }
{
    let fetch = Fetch::start(alloc, order)?;
    Ok(Box::new(alloc, fetch)?)
}

// The client asks for a fetch, which begins.
fn begin_fetch<M: Runner>(
    alloc: Global,
    program: &M::Program,
    drawn: Option<u64>,
    client: Client<M>,
    order: Order,
) -> Result<Settled<M>, AllocError>
    requires may { ClientMay (λ run ran. M.stands run program.now ran) M.fits client.place }
    ensures settles { IfOk result (λ settled. (start : Opened) (givens : List Gift)
        → ClientStands (for_client (evaluator M.turns M.targets M.default_of program.now)) (λ run ran. M.stands run program.now ran) M.fits start givens client.place
        → SettlesAt (evaluator M.turns M.targets M.default_of program.now) (λ run ran. M.stands run program.now ran) M.fits drawn (ToFetch start givens order (Given.Start ∷ [])) settled) }
    ensures goes_on { IfOk result (λ settled. MayGoOn (λ run ran. M.stands run program.now ran) M.fits settled.place) }
{
    let number = order.number;
    let Ok(fetch) = start_fetch(alloc, order) else {
        return Err(out_of_memory(client));
    };
    to_fetch(alloc, program, drawn, client, number, fetch, Given::Start)
}

/// The client is given this.
pub(crate) fn to_client<M: Runner>(
    alloc: Global,
    program: &M::Program,
    drawn: Option<u64>,
    mut client: Client<M>,
    given: Given,
) -> Result<Settled<M>, AllocError>
    requires may { ClientMay (λ run ran. M.stands run program.now ran) M.fits client.place }
    ensures settles { IfOk result (λ settled. (start : Opened) (givens : List Gift)
        → ClientStands (for_client (evaluator M.turns M.targets M.default_of program.now)) (λ run ran. M.stands run program.now ran) M.fits start givens client.place
        → SettlesAt (evaluator M.turns M.targets M.default_of program.now) (λ run ran. M.stands run program.now ran) M.fits drawn (ToClient start (given ∷ givens)) settled) }
    ensures goes_on { IfOk result (λ settled. MayGoOn (λ run ran. M.stands run program.now ran) M.fits settled.place) }
{
    let Ok(want) = client.resume(alloc, program, given) else {
        return Err(out_of_memory(client));
    };
    let passed = pass(want);
    match passed {
        Passed::Wanted(want) => Ok(Settled {
            place: Place::Client(client),
            want,
        }),
        Passed::Ordered(order) => begin_fetch(alloc, program, drawn, client, order),
    }
}

// The round of this number under the VCL of that one begins.
fn begin<M: Runner>(
    alloc: Global,
    program: &M::Program,
    drawn: Option<u64>,
    request: Request,
    peer: [u8; 4],
    reply: Reply,
) -> Result<Settled<M>, AllocError>
    ensures settles { IfOk result (SettlesAt (evaluator M.turns M.targets M.default_of program.now) (λ run ran. M.stands run program.now ran) M.fits drawn (after_begin request peer reply)) }
    ensures goes_on { IfOk result (λ settled. MayGoOn (λ run ran. M.stands run program.now ran) M.fits settled.place) }
{
    match reply {
        Reply::Began { number, vcl, text } => {
            drop(text);
            let client = Client::start(alloc, number, vcl, request, peer)?;
            to_client(alloc, program, drawn, client, Given::Start)
        }
        other => Ok(over((other, request))),
    }
}

/// The round's Begin is answered.
pub(crate) fn open<M: Runner>(
    alloc: Global,
    program: &M::Program,
    drawn: Option<u64>,
    request: Request,
    peer: [u8; 4],
    given: Given,
) -> Result<Settled<M>, AllocError>
    ensures settles { IfOk result (SettlesAt (evaluator M.turns M.targets M.default_of program.now) (λ run ran. M.stands run program.now ran) M.fits drawn (flow_of (Opening request peer) given)) }
    ensures goes_on { IfOk result (λ settled. MayGoOn (λ run ran. M.stands run program.now ran) M.fits settled.place) }
{
    match given {
        Given::Reply(told) => { begin(alloc, program, drawn, request, peer, told.reply) }
        other => Ok(over((other, request))),
    }
}
