// Laws of a round's wants, as contracts of functions that do nothing.
ghost use Rattle.std.specs.Prelude.{◌≡◌, ◌≢◌, ◌∷◌, ◌++◌, List, Option, Some, ℕ, true};
ghost use Rattle.cache_law.specs.declared.call.Call.TheVariants.{Begin, Lookup, Pick};
ghost use Rattle.cache_law.specs.declared.call.Query.{Query as Sought};
ghost use Rattle.cache_law.specs.declared.call.Reply.TheVariants.{Wait};
ghost use Rattle.cache_law.specs.declared.cache.Told.{Told as Answered};
ghost use Rattle.cache_law.specs.declared.rounds.Given.{Given as Gift};
ghost use Rattle.cache_law.specs.declared.rounds.Given.TheVariants.{Reply, Sent};
ghost use Rattle.cache_law.specs.declared.rounds.Order.{Order as Ordered};
ghost use Rattle.cache_law.specs.declared.rounds.Request.{Request as Asked};
ghost use Rattle.directors.specs.declared.target.Target.{Target as Aim};
ghost use Rattle.client_graph.specs.declared.round.Next.{Next as Opened};
ghost use Rattle.vcl_runs.specs.Evaluators.{evaluator, IsLike};
ghost use Rattle.round_task.specs.declared.want.Want.{Want as Wish};
ghost use Rattle.round_task.specs.Happened.{AnswersIt, Happened as Thing, IsWhole};
ghost use Rattle.round_task.specs.Laws.{BeginsOnce, EndsOnce, IsLast, IsSend, vcl_in};
ghost use Rattle.round_task.specs.Responses.{AnyWord, WantsBy};
ghost use Rattle.round_task.specs.Rounds.{AtFetch, Reaches, Wants};

use vcl_runs::Runner;

/// After the same givens a round wants the same, by the same drawn word.
pub fn one_want<M: Runner>(program: &M::Program)
    ensures { (drawn : Option ℕ) (request : Asked) (peer : List ℕ) (givens : List Gift) (one other : Wish)
        → Wants (evaluator M.turns M.targets M.default_of program.now) drawn request peer givens one
        → Wants (evaluator M.turns M.targets M.default_of program.now) drawn request peer givens other
        → other ≡ one }
{}

/// Programs that are alike lead a round alike.
pub fn led_alike<M: Runner>(program: &M::Program, other: &M::Program)
    ensures { (drawn : Option ℕ) (request : Asked) (peer : List ℕ) (givens : List Gift) (want : Wish)
        → IsLike (evaluator M.turns M.targets M.default_of program.now) (evaluator M.turns M.targets M.default_of other.now)
        → Wants (evaluator M.turns M.targets M.default_of program.now) drawn request peer givens want
        → Wants (evaluator M.turns M.targets M.default_of other.now) drawn request peer givens want }
{}

/// A round begins once.
pub fn begun_once<M: Runner>(program: &M::Program)
    ensures { (drawn : Option ℕ) (request : Asked) (peer : List ℕ) (givens : List Gift) (given : Gift) (want : Wish)
        → Wants (evaluator M.turns M.targets M.default_of program.now) drawn request peer (given ∷ givens) want
        → want ≢ Wish.Cache Begin }
{}

/// A round whose wants are answered goes on to its End, through its fetches.
pub fn goes_on_to_its_end<M: Runner>(program: &M::Program)
    ensures { (drawn redrawn : Option ℕ) (request : Asked) (peer : List ℕ) (givens : List Gift) (given : Gift) (want later : Wish)
        → (IsLast want → ⊥)
        → AnswersIt want given
        → Wants (evaluator M.turns M.targets M.default_of program.now) drawn request peer givens want
        → Wants (evaluator M.turns M.targets M.default_of program.now) redrawn request peer (given ∷ givens) later
        → later ≢ Wish.Done }
{}

/// Behind its End a round wants nothing.
pub fn nothing_behind_the_end<M: Runner>(program: &M::Program)
    ensures { (drawn redrawn : Option ℕ) (request : Asked) (peer : List ℕ) (givens : List Gift) (given : Gift) (want later : Wish)
        → IsLast want
        → Wants (evaluator M.turns M.targets M.default_of program.now) drawn request peer givens want
        → Wants (evaluator M.turns M.targets M.default_of program.now) redrawn request peer (given ∷ givens) later
        → later ≡ Wish.Done }
{}

/// A lookup that is told to wait is made again.
pub fn looks_up_again<M: Runner>(program: &M::Program)
    ensures { (drawn redrawn : Option ℕ) (request : Asked) (peer : List ℕ) (givens : List Gift) (told : Answered) (token : ℕ) (query : Sought) (later : Wish)
        → told.reply ≡ Wait token
        → Wants (evaluator M.turns M.targets M.default_of program.now) drawn request peer givens (Wish.Cache (Lookup query))
        → Wants (evaluator M.turns M.targets M.default_of program.now) redrawn request peer (Reply told ∷ givens) later
        → later ≡ Wish.Cache (Lookup query) }
{}

/// Once its response was sent, a round sends none.
pub fn one_response<M: Runner>(program: &M::Program)
    ensures { (drawn redrawn : Option ℕ) (request : Asked) (peer : List ℕ) (givens more : List Gift) (want later : Wish)
        → IsSend want
        → Wants (evaluator M.turns M.targets M.default_of program.now) drawn request peer givens want
        → Wants (evaluator M.turns M.targets M.default_of program.now) redrawn request peer (more ++ Sent ∷ givens) later
        → IsSend later → ⊥ }
{}

/// A fetch behind the response begins when that was sent.
pub fn fetches_behind_its_response<M: Runner>(program: &M::Program)
    ensures { (request : Asked) (peer : List ℕ) (givens : List Gift) (start : Opened) (newest : Gift) (told : List Gift) (order : Ordered) (made : List Gift)
        → Reaches (evaluator M.turns M.targets M.default_of program.now) request peer givens (AtFetch start (newest ∷ told) order made)
        → order.background ≡ true
        → newest ≡ Sent }
{}

/// Whatever a round picks from, it picks under the VCL that its Begin was told.
pub fn one_vcl<M: Runner>(program: &M::Program)
    ensures { (drawn : Option ℕ) (request : Asked) (peer : List ℕ) (givens : List Gift) (vcl : ℕ) (target : Aim) (word : ℕ)
        → Wants (evaluator M.turns M.targets M.default_of program.now) drawn request peer givens (Wish.Cache (Pick vcl target word))
        → vcl_in givens ≡ Some vcl }
{}

/// All that happened in a whole round goes from its Begin to its End, each of which is once.
pub fn from_begin_to_end<M: Runner>(program: &M::Program)
    ensures { (request : Asked) (peer : List ℕ) (steps : List Thing)
        → IsWhole (WantsBy (evaluator M.turns M.targets M.default_of program.now) AnyWord request peer) steps
        → BeginsOnce steps × EndsOnce steps }
{}
