// What holds of the functions together.
ghost use Rattle.std.specs.Prelude.{List, ℕ, [], All};
ghost use Rattle.vmod_cookie.specs.Operations.{Answers, HasBytes, Leaves, Operation, jar_after};

/// After any list of operations, each of whose functions got as its jar what the one before it answered, the jar's text is
/// asked as the jar that the operations make of the empty one.
pub fn answers_of_the_jar()
    ensures { (operations : List Operation) (jar : List ℕ) → All HasBytes operations → Leaves [] operations jar → Answers jar (jar_after operations) }
{}
