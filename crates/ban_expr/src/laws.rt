// Words say one ban at most, or are refused for one cause.
ghost use Rattle.std.specs.Prelude.{◌≡◌, ◌≢◌, List};
ghost use Rattle.cache_law.specs.declared.ban.Condition.{Condition as SaidCondition};
ghost use Rattle.ban_expr.specs.declared.error.BanError.{BanError as Refusal};
ghost use Rattle.ban_expr.specs.declared.error.BanError.TheVariants.{NoMemory};
ghost use Rattle.ban_expr.specs.Reading.{Reads, IsRefusal};

use cli_words::Words;

/// Words say one list of conditions at most, those that say one are refused for want of memory alone, and others for
/// one cause.
pub fn one_ban(words: &Words)
    ensures one { (some others : List SaidCondition) → Reads words.now some → Reads words.now others → some ≡ others }
    ensures no_refusal { (conditions : List SaidCondition) (error : Refusal) → Reads words.now conditions → IsRefusal words.now error
        → error ≡ NoMemory }
    ensures one_refusal { (error other : Refusal) → IsRefusal words.now error → IsRefusal words.now other → error ≢ NoMemory → other ≢ NoMemory
        → error ≡ other }
{}
