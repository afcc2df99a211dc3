// Laws of a client's wants, as contracts of functions that do nothing.
ghost use Rattle.std.specs.Prelude.{◌≡◌, ◌≢◌, ◌∷◌, ◌≤◌, None, List, ℕ};
ghost use Rattle.cache_law.specs.declared.rounds.Given.{Given as Gift};
ghost use Rattle.cache_law.specs.declared.rounds.Request.{Request as Asking};
ghost use Rattle.cache_law.specs.declared.call.Query.{Query as Sought};
ghost use Rattle.vcl_context.specs.declared.context.Context.{Context as Worked};
ghost use Rattle.client_graph.specs.declared.round.Next.{Next as Opened};
ghost use Rattle.client_graph.specs.declared.round.Round.{Round as Going};
ghost use Rattle.client_graph.specs.declared.round.WaitPoint.TheVariants.{Look};
ghost use Rattle.client_graph.specs.declared.round.ClientWant.{ClientWant as Wanted};
ghost use Rattle.client_graph.specs.Opening.{opening};
ghost use Rattle.client_task.specs.Laws.{AnswersIt, IsLast, IsUnder, round_at};
ghost use Rattle.client_task.specs.Rounds.{Between, Node, Reaches, Wants, evaluator};
ghost use Rattle.client_task.specs.Tokens.{WantsWith, held_token};

use vcl_runs::Runner;

/// After the same givens a round wants the same.
pub fn one_want<M: Runner>(program: &M::Program)
    ensures { (opened : Opened) (givens : List Gift) (one other : Wanted)
        → Wants (evaluator M.turns M.targets program.now) opened givens one
        → Wants (evaluator M.turns M.targets program.now) opened givens other
        → other ≡ one }
{}

/// Behind its end a round wants nothing.
pub fn nothing_behind_the_end<M: Runner>(program: &M::Program)
    ensures { (opened : Opened) (givens : List Gift) (given : Gift) (want later : Wanted)
        → IsLast want
        → Wants (evaluator M.turns M.targets program.now) opened givens want
        → Wants (evaluator M.turns M.targets program.now) opened (given ∷ givens) later
        → later ≡ Wanted.Done }
{}

/// A round whose wants are answered goes on to its end.
pub fn goes_on_to_its_end<M: Runner>(program: &M::Program)
    ensures { (opened : Opened) (givens : List Gift) (given : Gift) (want later : Wanted)
        → (IsLast want → ⊥)
        → AnswersIt want given
        → Wants (evaluator M.turns M.targets program.now) opened givens want
        → Wants (evaluator M.turns M.targets program.now) opened (given ∷ givens) later
        → later ≢ Wanted.Done }
{}

/// A round that looks a key up has no fetch to make behind its response.
pub fn looks_up_without_a_fetch<M: Runner>(program: &M::Program)
    ensures { (number vcl : ℕ) (request : Asking) (peer : List ℕ) (givens : List Gift) (query : Sought) (context : Worked) (round : Going)
        → Reaches (evaluator M.turns M.targets program.now) (opening number vcl request peer) givens (Between (Look query context) round)
        → round.background ≡ None }
{}

/// All fetches of a round are asked for under the VCL that it began with.
pub fn one_vcl<M: Runner>(program: &M::Program)
    ensures { (number vcl : ℕ) (request : Asking) (peer : List ℕ) (givens : List Gift) (want : Wanted)
        → Wants (evaluator M.turns M.targets program.now) (opening number vcl request peer) givens want
        → IsUnder vcl want }
{}

/// A round is restarted at most four times.
pub fn few_restarts<M: Runner>(program: &M::Program)
    ensures { (number vcl : ℕ) (request : Asking) (peer : List ℕ) (givens : List Gift) (node : Node)
        → Reaches (evaluator M.turns M.targets program.now) (opening number vcl request peer) givens node
        → (round_at node).restarts ≤ 4 }
{}

/// A round that looks a key up, draws a number or ends holds no open fetch: the one that a lookup opened was given up, or made.
/// What it gives up and what it makes is the one that it holds.
pub fn holds_what_its_lookup_opened<M: Runner>(program: &M::Program)
    ensures { (number vcl : ℕ) (request : Asking) (peer : List ℕ) (givens : List Gift) (want : Wanted)
        → Wants (evaluator M.turns M.targets program.now) (opening number vcl request peer) givens want
        → WantsWith want (held_token givens) }
{}
