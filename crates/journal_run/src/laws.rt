// A journal that is closed, by what was written of it.
ghost use Rattle.std.specs.Prelude.{◌≡◌, ◌++◌, List};
ghost use Rattle.cache_law.specs.declared.call.Entry.{Entry as HistoryEntry};
ghost use Rattle.cache_law.specs.declared.setting.Boot.{Boot as Opening};
ghost use Rattle.cache_law.specs.declared.setting.Params.{Params as Limits};
ghost use Rattle.journal_writer.specs.Segments.{first_text, segment_text};
ghost use Rattle.journal_writer.specs.declared.closing.Closing.TheVariants.{Close as Last};
ghost use Rattle.journal_run.specs.Gains.{cut_text, whole_journal};

use journal_writer::journal_is_its_segments;

/// The first line, the segments that were cut, and the last one that is closed are the journal of all of them.
pub fn journal_is_closed()
    ensures { (params : Limits) (boot : Opening) (segments : List (List HistoryEntry)) (last : List HistoryEntry)
        → whole_journal params boot segments last ≡ first_text params boot ++ (cut_text segments ++ segment_text last Last) }
{
    journal_is_its_segments();
}
