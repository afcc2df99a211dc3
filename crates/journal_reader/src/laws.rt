// What the texts of journals determine.
ghost use Rattle.std.specs.Prelude.{◌≡◌, ℕ, List};
ghost use Rattle.journal_text.specs.declared.line.Line.{Line as JournalLine};
ghost use Rattle.journal_text.specs.Journals.{IsLine, lines_text};
ghost use Rattle.journal_reader.specs.Histories.{AreLines};

/// A text is one line at most.
pub fn one_text()
    ensures { (text : List ℕ) (some other : JournalLine) → IsLine text some → IsLine text other → some ≡ other }
{}

/// A text of lines, each with its LF, is one list of lines.
pub fn one_history()
    ensures { (some others : List JournalLine) → AreLines some → AreLines others → lines_text some ≡ lines_text others → some ≡ others }
{}
