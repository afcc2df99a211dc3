// How a segment is closed.
ghost use Rattle.std.specs.Prelude.{◌≡◌};
ghost use Rattle.journal_text.specs.Journals.{ended};
ghost use Rattle.journal_writer.specs.Segments.{line_of};

/// How a segment is closed.
#[derive(Clone, Copy, Debug, PartialEq, Eq)]
pub enum Closing {
    /// Another segment follows.
    Cut,
    /// It is the last one.
    Close,
}

impl Closing {
    // The text of the line that closes it.
    pub(crate) fn text(self) -> &'static [u8]
        ensures { result.now ≡ ended (line_of self) }
    {
        match self {
            Closing::Cut => b"cut\n",
            Closing::Close => b"close\n",
        }
    }
}
