// A journal, by the pieces that are written.
ghost use Rattle.std.specs.Prelude.{◌≡◌, ◌++◌, List};
ghost use Rattle.cache_law.specs.declared.call.Entry.{Entry as HistoryEntry};
ghost use Rattle.cache_law.specs.declared.setting.Boot.{Boot as Opening};
ghost use Rattle.cache_law.specs.declared.setting.Params.{Params as Limits};
ghost use Rattle.journal_text.specs.Journals.{journal_text};
ghost use Rattle.journal_writer.specs.Segments.{first_text, segments_text};

/// A journal is its first line and its segments, each of which is closed by `cut` but the last.
pub fn journal_is_its_segments()
    ensures { (params : Limits) (boot : Opening) (segment : List HistoryEntry) (segments : List (List HistoryEntry))
        → journal_text params boot segment segments ≡ first_text params boot ++ segments_text segment segments }
{}
