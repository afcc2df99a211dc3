// What a round wants, and what the wants of its client and of its fetch are to it.
ghost use Rattle.std.specs.Prelude.{◌≡◌};
ghost use Rattle.round_task.specs.Rounds.{want_of_client, made_of};

use cache_law::Call;
use cache_law::rounds::{FetchOutcome, Order};
use delivery::Delivery;
use http_heads::BackendRequest;
use units::Text;

/// What a round wants.
#[derive(Drop)]
pub enum Want {
    /// A call of the cache.
    Cache(Call),
    /// An exchange with the backend of this name, for the fetch of this number.
    Exchange {
        number: u64,
        backend: Text,
        request: BackendRequest,
    },
    /// That its response is sent.
    Send(Delivery),
    /// Nothing more.
    Done,
}

/// What a client's want is to its round.
#[derive(Drop)]
pub(crate) enum Passed {
    /// The round wants it.
    Wanted(Want),
    /// A fetch is to be made.
    Ordered(Order),
}

/// What a fetch's want is to its round.
#[derive(Drop)]
pub(crate) enum Made {
    /// The round wants it.
    Wanted(Want),
    /// The fetch is over, with this outcome.
    Over(FetchOutcome),
}

/// What a client's want is to its round.
pub(crate) fn pass(want: client_graph::ClientWant) -> Passed
    ensures { result ≡ want_of_client want }
{
    match want {
        client_graph::ClientWant::Cache(call) => Passed::Wanted(Want::Cache(call)),
        client_graph::ClientWant::Send(delivery) => Passed::Wanted(Want::Send(delivery)),
        client_graph::ClientWant::Done => Passed::Wanted(Want::Done),
        client_graph::ClientWant::Fetch(order) | client_graph::ClientWant::Background(order) => {
            Passed::Ordered(order)
        }
    }
}

/// What the want of the fetch of this number is to its round.
pub(crate) fn make(number: u64, want: fetch_graph::FetchWant) -> Made
    ensures { result ≡ made_of number want }
{
    match want {
        fetch_graph::FetchWant::Cache(call) => Made::Wanted(Want::Cache(call)),
        fetch_graph::FetchWant::Ask { backend, request } => Made::Wanted(Want::Exchange {
            number,
            backend,
            request,
        }),
        fetch_graph::FetchWant::Done(outcome) => Made::Over(outcome),
    }
}
