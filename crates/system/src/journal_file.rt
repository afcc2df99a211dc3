// The journal's file.
ghost use Rattle.std.specs.Prelude.{◌≡◌, ◌≤◌, ◌<◌, None, length};
ghost use Rattle.std.specs.Io.{WritesAtMost};
ghost use Rattle.wire.specs.Causes.{HasCause, TakesOrRose};

use crate::earlier_journals::put_away;
use crate::stream::write_counted;
use edge::Outside;
use std::fs::OpenOptions;
use std::io;
use std::rt::Files;
use wire::{Failed, Sink};

/// Behind how many bytes a file ends at the next line that closes a segment.
const FILE_BYTES: u64 = 268_435_456;

/// The line that closes a segment.
const CUT: &[u8] = b"cut";

/// How much of the line that closes a segment the line under way begins with. None where it is another line.
#[derive(Clone, Copy, Debug, PartialEq, Eq)]
struct Line {
    begun: Option<usize>,
}

impl Line {
    fn new() -> Line {
        Line { begun: Some(0) }
    }

    // Takes a byte more. Whether it ends a line that closes a segment.
    fn take(&mut self, byte: u8) -> bool {
        if byte == b'\n' {
            let is_cut = self.begun == Some(CUT.len());
            self.begun = Some(0);
            return is_cut;
        }
        self.begun = match self.begun {
            Some(count) if CUT.get(count) == Some(&byte) => Some(count.saturating_add(1)),
            _ => None,
        };
        false
    }
}

/// A sink over a file. Behind 256 MiB it ends at the next line `cut`; then, and where a run begins, the file is given a number behind
/// those of earlier ones, so that no run takes another's away. It tells nothing of the text.
#[derive(Drop)]
pub struct JournalFile<R: Outside + Files> {
    pub faults: u64,
    /// Behind how many bytes a file ends at the next line `cut`.
    pub limit: u64,
    rt: R,
    name: String,
    /// How many earlier files stay; all where it isn't told.
    keep: Option<u64>,
    /// None where the next write begins a file.
    file: Option<R::File>,
    /// How many bytes the file has.
    size: u64,
    line: Line,
}

impl<R: Outside + Files> JournalFile<R> {
    /// A file of this name without any text; one that is there gets a number, and of those with numbers at most so many stay.
    pub fn begin(rt: R, name: &str, keep: Option<u64>) -> io::Result<JournalFile<R>> {
        let mut journal = JournalFile {
            faults: 0,
            limit: FILE_BYTES,
            rt,
            name: String::from_str(rt.alloc(), name)?,
            keep,
            file: None,
            size: 0,
            line: Line::new(),
        };
        journal.begin_file()?;
        Ok(journal)
    }

    // Begins a file where there is none.
    fn begin_file(&mut self) -> io::Result<()>
        ensures same { self.new.faults ≡ self.old.faults }
    {
        if self.file.is_some() {
            return Ok(());
        }
        put_away(&self.rt, self.name.as_str(), self.keep)?;
        let mut options = OpenOptions::new();
        options.write(true).create_new(true);
        self.file = Some(options.open(&self.rt, self.name.as_str())?);
        self.size = 0;
        self.line = Line::new();
        Ok(())
    }

    // How many bytes of a piece are the file's: up to the first line that ends it.
    fn share(&self, piece: &[u8]) -> usize
        ensures bound { result ≤ length piece.now }
        ensures some { 0 < length piece.now → 0 < result }
    {
        let mut line = self.line;
        let mut size = self.size;
        for (index, byte) in piece.iter().enumerate() {
            size = size.saturating_add(1);
            if line.take(*byte) && size > self.limit {
                return index + 1;
            }
        }
        piece.len()
    }

    // Counts bytes that were written. Behind the line that ends the file it gets its number.
    fn add(&mut self, bytes: &[u8])
        ensures same { self.new.faults ≡ self.old.faults }
    {
        let mut line = self.line;
        let mut is_cut = false;
        for byte in bytes {
            is_cut = line.take(*byte);
        }
        self.line = line;
        self.size = self.size.saturating_add(bytes.len() as u64);
        if is_cut && self.size > self.limit {
            self.file = None;
            // Where that fails, the next write tries it again.
            let _ = put_away(&self.rt, self.name.as_str(), self.keep);
        }
    }

    // Writes bytes of the file.
    fn write_share(&mut self, share: &[u8]) -> Result<usize, Failed>
        ensures bound { WritesAtMost result share.now }
        ensures cause { HasCause self.old.faults self.new.faults result }
        ensures takes { TakesOrRose self.old.faults self.new.faults result share.now }
    {
        let Some(file) = &mut self.file else {
            self.faults = self.faults.saturating_add(1);
            return Err(Failed);
        };
        let answer = write_counted(file, share, &mut self.faults);
        if let Ok(count) = answer {
            self.add(share.get(..count).unwrap_or_default());
        }
        answer
    }
}

impl<R: Outside + Files> Sink for JournalFile<R> {
    ghost held = { λ _. None };

    ghost faults = { λ f. f.faults };

    /// It takes no more than the file does that is under way.
    fn write(&mut self, piece: &[u8]) -> Result<usize, Failed> {
        if self.begin_file().is_err() {
            self.faults = self.faults.saturating_add(1);
            return Err(Failed);
        }
        let count = self.share(piece);
        self.write_share(&piece[..count])
    }
}
