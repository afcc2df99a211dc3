// What lines say is one thing, and what is answered to their calls.
ghost use Rattle.std.specs.Prelude.{◌≡◌, true, ℕ, List, IsSome};
ghost use Rattle.cache_law.specs.declared.call.Call.{Call as CacheCall};
ghost use Rattle.cache_law.specs.declared.call.Reply.{Reply as CacheReply};
ghost use Rattle.cache_law.specs.declared.setting.Params.{Params as Limits};
ghost use Rattle.cache_law.specs.Law.{step_of, MayAnswer};
ghost use Rattle.cache_law.specs.State.{State, at_moment};
ghost use Rattle.vmod_host.specs.declared.signature.Stored.{Stored as StoredFunction};
ghost use Rattle.cli_console.specs.declared.command.Command.TheVariants.{Cache};
ghost use Rattle.cli_console.specs.declared.message.Message.{Message as Said};
ghost use Rattle.cli_console.specs.declared.orders.Order.{Order as Ordered};
ghost use Rattle.cli_console.specs.Answers.{is_console, name_in, message_to};
ghost use Rattle.cli_console.specs.Lines.{IsCommand, IsLoadOf};
ghost use Rattle.cli_console.specs.Orders.{IsOrderOf, IsWrongLine};

/// The calls that lines make, and those that load files, have an answer to each reply that the law of the cache gives
/// them.
pub fn console_calls_are_answered()
    ensures commands { (stored : List StoredFunction) (line : List ℕ) (call : CacheCall) → IsCommand stored line (Cache call) → is_console call ≡ true }
    ensures loads { (stored : List StoredFunction) (name text : List ℕ) (call : CacheCall) → IsLoadOf stored name text call → is_console call ≡ true }
    ensures replies { (params : Limits) (state : State) (caller moment : ℕ) (call : CacheCall) (reply : CacheReply) → is_console call ≡ true
        → MayAnswer (at_moment moment state) call (step_of params state caller moment call).reply reply
        → IsSome (message_to (name_in call) reply) }
{}

/// A line orders one thing, or is wrong for one reason, as far as that takes no text of a VCL.
pub fn one_meaning()
    ensures order { (line : List ℕ) (some other : Ordered) → IsOrderOf line some → IsOrderOf line other → some ≡ other }
    ensures reason { (line : List ℕ) (some other : Said) → IsWrongLine line some → IsWrongLine line other → some ≡ other }
    ensures either { (line : List ℕ) (order : Ordered) (reason : Said) → IsOrderOf line order → IsWrongLine line reason → ⊥ }
{}
