// Laws of responses, as contracts of functions that do nothing.
ghost use Rattle.std.specs.Prelude.{◌≡◌, ◌⊎◌, [], List, Option, ℕ, Bool};
ghost use Rattle.wire.specs.Tapes.{Tape};
ghost use Rattle.wire.specs.Telling.{told_by};
ghost use Rattle.cache_law.specs.declared.call.Entry.{Entry as HistoryEntry};
ghost use Rattle.cache_law.specs.Beginning.{Beginning};
ghost use Rattle.vcl_runs.specs.Languages.{language_of};
ghost use Rattle.round_lead.specs.declared.cut.Cut.{Cut as Cutting};
ghost use Rattle.round_lead.specs.declared.keeping.Round.{Round as Kept};
ghost use Rattle.round_lead.specs.Responses.{Tells, TellsCut};
ghost use Rattle.round_lead.specs.Tapes.{ToldIn, WasDrawn};
ghost use Rattle.round_lead.specs.Vcls.{RunsUnderItsVcl};

use vcl_runs::{Programs, Runner};
use wire::{Dialer, Link};

/// A response is made under the VCL that its round's Begin was told, whatever was loaded, used or discarded meanwhile: by a program
/// of the text that the Begin was told, and each director at the round's places picks for that VCL. Of a round that was cut short
/// the same holds, if anything of it stands in the history but its End.
pub fn made_under_its_vcl<D: Dialer, P: Programs<M>, M: Runner>()
    ensures whole { (words words' readings readings' : Option Tape) (beginning : Beginning) (history : List HistoryEntry) (caller : ℕ) (round : Kept) (talks : _) (closes : Bool)
        → (told : Tells (language_of P.of_text M.turns M.targets M.default_of P.backends) (WasDrawn words words') (ToldIn readings readings')
        (told_by D.Link.flow D.Link.read_faults D.Link.write_faults D.Link.peer D.Link.is_open) beginning history caller round talks closes)
        → RunsUnderItsVcl (language_of P.of_text M.turns M.targets M.default_of P.backends) beginning.base.entries history caller round.numbers.items told.program }
    ensures cut { (words words' readings readings' : Option Tape) (beginning : Beginning) (history : List HistoryEntry) (caller : ℕ) (round : Kept) (talks : _) (why : Cutting)
        → (told : TellsCut (language_of P.of_text M.turns M.targets M.default_of P.backends) (WasDrawn words words') (ToldIn readings readings')
        (told_by D.Link.flow D.Link.read_faults D.Link.write_faults D.Link.peer D.Link.is_open) beginning history caller round talks why)
        → (told.steps ≡ []) ⊎ RunsUnderItsVcl (language_of P.of_text M.turns M.targets M.default_of P.backends) beginning.base.entries history caller told.places told.program }
{}
