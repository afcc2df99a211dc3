// Laws of the requests in a connection's bytes, as contracts of functions that do nothing.
ghost use Rattle.std.specs.Prelude.{◌≡◌, ◌⊎◌, ◌++◌, ℕ, List, [], Option};
ghost use Rattle.std.specs.declared.option.Option.TheVariants.{Some};
ghost use Rattle.wire.specs.Flow.{Flow, Moves};
ghost use Rattle.connection.specs.Requests.{Request, BeginsRequest, BeginsRequests, LacksRequest};
ghost use Rattle.connection.specs.Serving.{Round, IsBad, AllKept, EndsBehind, Stops, requests_of, sent_of};
ghost use Rattle.connection.specs.Complete.{AnswersAll};
ghost use Rattle.connection.specs.declared.ended.Ended.{Ended as End};
ghost use Rattle.connection.specs.declared.ended.Ended.TheVariants.{Closed, BadRequest};

/// Bytes have one reading as requests. They begin with one request at most; requests at their front stand there too where more
/// bytes follow, wherever the bytes were cut; and what requests are read at the front is a front of all that stand there.
pub fn one_reading()
    ensures one { (input : List ℕ) (request other : Request) (rest left : List ℕ) → BeginsRequest input request rest → BeginsRequest input other left
        → (request ≡ other) × (rest ≡ left) }
    ensures longer { (input more : List ℕ) (requests : List Request) (rest : List ℕ) → BeginsRequests input requests rest
        → BeginsRequests (input ++ more) requests (rest ++ more) }
    ensures joined { (input : List ℕ) (requests others : List Request) (mid rest : List ℕ) → BeginsRequests input requests mid → BeginsRequests mid others rest
        → BeginsRequests input (requests ++ others) rest }
    ensures all { (input : List ℕ) (requests others : List Request) (rest left : List ℕ) → BeginsRequests input requests rest → BeginsRequests input others left
        → LacksRequest left → (more : List Request) × (others ≡ requests ++ more) × BeginsRequests rest more left }
    ensures whole { (input : List ℕ) (requests others : List Request) (rest left : List ℕ) → BeginsRequests input requests rest → BeginsRequests input others left
        → LacksRequest rest → LacksRequest left → (requests ≡ others) × (rest ≡ left) }
{}

/// What is told of the bytes that were read holds of all that the link had left, where that is told: the requests stand at the
/// front of all the bytes. Where the connection ended because no request was there, or for the end of the input, no request stands
/// behind them either. So each request that is there has a round.
pub fn every_request()
    ensures front { (before after : Flow) (held read sent : List ℕ) (requests : List Request) (rest : List ℕ) → Moves (Some before) (Some after) read sent
        → BeginsRequests (held ++ read) requests rest → BeginsRequests (held ++ before.left) requests (rest ++ after.left) }
    ensures bad { (after : Flow) (rest : List ℕ) → IsBad (Some after) rest → LacksRequest (rest ++ after.left) }
    ensures end { LacksRequest [] }
{}

/// Where a connection ended for the end of the input, by a response that says so or because no request was there, each request in all
/// the bytes that its link had left has a whole round, up to the first whose response closes the connection.
pub fn each_answered()
    ensures { (before after : Flow) (held read : List ℕ) (rounds : List Round) (rest extra left : List ℕ) (ended : End)
        → Moves (Some before) (Some after) read (sent_of rounds ++ extra) → BeginsRequests (held ++ read) (requests_of rounds) rest
        → EndsBehind ended rounds left rest extra ⊎ (AllKept rounds × Stops ended (Some after) left rest extra)
        → (ended ≡ Closed) ⊎ (ended ≡ BadRequest) → AnswersAll (held ++ before.left) rounds }
{}
