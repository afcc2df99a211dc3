// Laws of exchanges, as contracts of functions that do nothing.
ghost use Rattle.std.specs.Prelude.{◌≡◌, ◌≢◌, Bool, ℕ, List, Option};
ghost use Rattle.http_heads.specs.declared.exchange.BackendRequest.{BackendRequest as Request};
ghost use Rattle.http_heads.specs.declared.exchange.Exchange.{Exchange as Answer};
ghost use Rattle.http_heads.specs.declared.exchange.Exchange.TheVariants.{Fault, NoMemory};
ghost use Rattle.wire.specs.Flow.{Flow};
ghost use Rattle.backend_link.specs.Exchanges.{Conversed};
ghost use Rattle.backend_link.specs.Said.{Outcome, Says, SaidBy};
ghost use Rattle.backend_link.specs.WholeReplies.{IsReplyTo};

/// Bytes say one answer at most. Where neither a write nor a read failed and memory was there, the answer of a conversation is
/// the one that the bytes say which the link had left.
pub fn one_answer()
    ensures one { (to_head : Bool) (bytes : List ℕ) (a b : Outcome) → Says to_head bytes a → Says to_head bytes b → a ≡ b }
    ensures said { (request : Request) (before after : Option Flow) (answer : Answer) → Conversed request before after answer
        → answer ≢ Fault 2 → answer ≢ Fault 3 → answer ≢ NoMemory → SaidBy request before answer }
{}

/// Bytes are one exchange at most, for a request that was HEAD or not, and that is no want of memory.
pub fn one_exchange()
    ensures one { (to_head : Bool) (bytes : List ℕ) (one other : Answer) → IsReplyTo to_head bytes one → IsReplyTo to_head bytes other → one ≡ other }
    ensures over { (to_head : Bool) (bytes : List ℕ) → IsReplyTo to_head bytes NoMemory → ⊥ }
{}
