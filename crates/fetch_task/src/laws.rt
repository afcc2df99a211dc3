// Laws of a fetch's wants, as contracts of functions that do nothing.
ghost use Rattle.std.specs.Prelude.{◌≡◌, ◌≤◌, ◌∷◌, List, is_some, true, ℕ};
ghost use Rattle.cache_law.specs.declared.rounds.Given.{Given as Gift};
ghost use Rattle.cache_law.specs.declared.rounds.FetchOutcome.{FetchOutcome as Outcome};
ghost use Rattle.cache_law.specs.declared.rounds.Order.{Order as Asked};
ghost use Rattle.fetch_graph.specs.declared.fetch.Next.{Next as Standing};
ghost use Rattle.fetch_graph.specs.declared.fetch.FetchWant.{FetchWant as Wanted};
ghost use Rattle.fetch_graph.specs.Opening.{opening};
ghost use Rattle.fetch_task.specs.Laws.{AnswersIt, Closes, fetch_of, IsFor, with_word};
ghost use Rattle.fetch_task.specs.Fetches.{Reaches, Wants};
ghost use Rattle.vcl_runs.specs.Evaluators.{evaluator};

use vcl_runs::Runner;

/// After the same givens a fetch wants the same.
pub fn one_want<M: Runner>(program: &M::Program)
    ensures { (opened : Standing) (givens : List Gift) (drawn : ℕ) (one other : Wanted)
        → Wants (evaluator M.turns M.targets M.default_of program.now) drawn opened givens one
        → Wants (evaluator M.turns M.targets M.default_of program.now) drawn opened givens other
        → other ≡ one }
{}

/// Another drawn word changes nothing but the word of a pick of kind random.
pub fn one_word<M: Runner>(program: &M::Program)
    ensures { (opened : Standing) (givens : List Gift) (drawn redrawn : ℕ) (one other : Wanted)
        → Wants (evaluator M.turns M.targets M.default_of program.now) drawn opened givens one
        → Wants (evaluator M.turns M.targets M.default_of program.now) redrawn opened givens other
        → other ≡ with_word redrawn one }
{}

/// What a fetch wants is for its order, and so has the order's number however often it is tried again.
pub fn for_its_order<M: Runner>(program: &M::Program)
    ensures { (order : Asked) (givens : List Gift) (drawn : ℕ) (want : Wanted)
        → Wants (evaluator M.turns M.targets M.default_of program.now) drawn (opening order) givens want
        → IsFor order want }
{}

/// A fetch is tried again at most four times.
pub fn few_retries<M: Runner>(program: &M::Program)
    ensures { (order : Asked) (givens : List Gift) (place : Standing)
        → Reaches (evaluator M.turns M.targets M.default_of program.now) (opening order) givens place
        → (fetch_of place).retries ≤ 4 }
{}

/// A fetch for a lookup whose wants are answered is over only once its insertion or its drop was answered.
pub fn closes_what_its_lookup_opened<M: Runner>(program: &M::Program)
    ensures { (order : Asked) (givens : List Gift) (given : Gift) (drawn redrawn : ℕ) (want : Wanted) (outcome : Outcome)
        → is_some order.looked ≡ true
        → AnswersIt want given
        → Wants (evaluator M.turns M.targets M.default_of program.now) drawn (opening order) givens want
        → Wants (evaluator M.turns M.targets M.default_of program.now) redrawn (opening order) (given ∷ givens) (Wanted.Done outcome)
        → Closes want }
{}
