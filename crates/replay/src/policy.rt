// What a round wants next, after what it was given.
ghost use Rattle.std.specs.Prelude.{◌≡◌, List, [], ◌∷◌, ℕ, IfOk, OnOk, false, true};
ghost use Rattle.cache_law.specs.declared.call.Reply.TheVariants.{Wait as Waits};
ghost use Rattle.replay.specs.declared.policy.Request.{Request as Asked};
ghost use Rattle.replay.specs.declared.policy.Given.{Given as Gift};
ghost use Rattle.replay.specs.declared.policy.Want.{Want as Wish};
ghost use Rattle.replay.specs.Policy.{HasOneWant, IsDue, goes_on, is_response};

use crate::Instruction;
use cache_law::{Call, Reply};
use http_heads::{BackendRequest, Got, RequestHead};
use std::alloc::{AllocError, Global};
use units::Text;

/// What a client sent.
#[derive(Drop)]
pub enum Message {
    /// A whole request with this head and body.
    Whole { head: RequestHead, body: Text },
    /// Bytes that begin with no whole request.
    Unreadable,
    /// A line of the console, which is client 0.
    Line(Instruction),
}

/// What a client sent, and the client's number.
#[derive(Drop)]
pub struct Request {
    pub client: u32,
    pub message: Message,
}

/// What a round is given.
#[derive(Drop)]
pub enum Given {
    /// It begins at this moment.
    Start { moment: u64 },
    /// Its call was entered at this moment, with this reply.
    Told { moment: u64, reply: Reply },
    /// Its exchange is over.
    Came(Got),
    /// Its response was sent.
    Sent,
    /// The fetch that it waited for is closed.
    Closed,
}

/// What a round wants.
#[derive(Drop)]
pub enum Want {
    /// A call of the cache.
    Ask(Call),
    /// An exchange with a backend, for the fetch of this number.
    Exchange {
        number: u64,
        backend: Text,
        request: BackendRequest,
    },
    /// That the client gets these bytes; for the console, this answer.
    Respond(Text),
    /// That the fetch of this number is closed.
    Await(u64),
    /// Nothing more.
    Done,
}

/// How a round is led, from the request on, one want after another.
pub trait Policy: Drop {
    /// What all rounds share, as the programs that lead them.
    type Context;

    /// After these givens, newest first, a round of this request wants this.
    ghost wants: { Asked → List Gift → Wish → Type 0 };

    /// The round has this request and was given these.
    ghost stands: { Self → Asked → List Gift → Type 0 };

    fn start(alloc: Global, request: Request) -> Result<Self, AllocError>
        ensures { IfOk result (λ round. stands round request []) };

    /// The next want, where what is given answers the last one. A response is never followed by another at once. A
    /// round that is told to wait for a fetch waits for it, and goes on with a lookup or ends.
    fn resume(
        &mut self,
        alloc: Global,
        context: &mut Self::Context,
        given: Given,
    ) -> Result<Want, AllocError>
        requires { IsDue wants stands self.old given }
        ensures stands { OnOk result ((request : Asked) (givens : List Gift) → stands self.old request givens → stands self.new request (given ∷ givens)) }
        ensures wanted { IfOk result (λ want. (request : Asked) (givens : List Gift) → stands self.old request givens → wants request (given ∷ givens) want) }
        ensures calm { given ≡ Given.Sent → IfOk result (λ want. is_response want ≡ false) }
        ensures waits { (moment token : ℕ) → given ≡ Given.Told moment (Waits token) → IfOk result (λ want. want ≡ Wish.Await token) }
        ensures calls { given ≡ Given.Closed → IfOk result (λ want. goes_on want ≡ true) };

    /// After the same givens a round wants the same.
    ghost one_want: { HasOneWant wants };
}
