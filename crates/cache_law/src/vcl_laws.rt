// Laws of VCLs, as contracts of functions that do nothing.
ghost use Rattle.std.specs.Prelude.{◌≡◌, ◌<◌, ◌++◌, ◌∷◌, ℕ, List};
ghost use Rattle.cache_law.specs.declared.call.Entry.{Entry as HistoryEntry};
ghost use Rattle.cache_law.specs.declared.call.Reply.TheVariants.{Began, Loaded};
ghost use Rattle.cache_law.specs.Beginning.{Beginning};
ghost use Rattle.cache_law.specs.Bases.{IsSound};
ghost use Rattle.cache_law.specs.History.{Legal, reached};
ghost use Rattle.cache_law.specs.declared.vcl.LoadedVcl.{LoadedVcl as Held};
ghost use Rattle.cache_law.specs.RoundVcls.{IsOneOf, RunsUnder, StaysOpen};

/// In a history that is legal from a sound state a round runs under the VCL that its beginning was told, with the text that it was told, as long as
/// it isn't ended, whatever is loaded, used or discarded meanwhile.
pub fn rounds_keep_their_vcl()
    ensures { (beginning : Beginning) (before between behind : List HistoryEntry) (begin : HistoryEntry) (number vcl : ℕ) (text : List ℕ) → IsSound beginning.base
        → Legal beginning (before ++ begin ∷ (between ++ behind)) → begin.reply ≡ Began number vcl text → StaysOpen begin.caller between
        → RunsUnder (reached beginning (before ++ begin ∷ between)) begin.caller vcl text }
{}

/// In a legal history a VCL that is loaded later has a greater number: none is given twice.
pub fn vcl_numbers_rise()
    ensures { (beginning : Beginning) (before between behind : List HistoryEntry) (first second : HistoryEntry) (number other : ℕ)
        → Legal beginning (before ++ first ∷ (between ++ second ∷ behind)) → first.reply ≡ Loaded number → second.reply ≡ Loaded other → number < other }
{}

/// Behind a sound state no two VCLs that are there have one number.
pub fn vcls_have_own_numbers()
    ensures { (beginning : Beginning) (entries : List HistoryEntry) (one other : Held) → IsSound beginning.base
        → IsOneOf one (reached beginning entries).vcls → IsOneOf other (reached beginning entries).vcls
        → one.vcl.number ≡ other.vcl.number → one ≡ other }
{}
