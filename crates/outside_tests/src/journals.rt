// The journal's file, and the files of earlier ones.
use std::fs;
use std::io::{self, ErrorKind};
use std::net::TcpListener;
use std::rt::Files;
use system::{JournalFile, Outside};
use wire::{Sink, write_all};

// A folder that no other run uses, since a free port of the machine's stands in its name.
fn free_folder<R: Outside + Files>(rt: &R) -> io::Result<String> {
    let listener = TcpListener::bind(rt, "127.0.0.1:0")?;
    let port = listener.local_addr()?.port();
    let folder = format!(in rt.alloc(); "/tmp/varn-outside-tests-{port}.folder")?;
    fs::create_dir(rt, folder.as_str())?;
    Ok(folder)
}

// A file for a journal, and what its files are made with.
#[derive(Drop)]
struct Scene<R: Outside + Files> {
    rt: R,
    file: String,
    limit: u64,
    keep: Option<u64>,
    /// None before the first run.
    journal: Option<JournalFile<R>>,
}

impl<R: Outside + Files> Scene<R> {
    // A run begins.
    fn restart(&mut self, out: &mut String) -> io::Result<()> {
        self.journal = None;
        match JournalFile::begin(self.rt, self.file.as_str(), self.keep) {
            Ok(mut journal) => {
                journal.limit = self.limit;
                self.journal = Some(journal);
            }
            Err(_) => write!(out, "no file ")?,
        }
        Ok(())
    }

    // Text of the journal, in which `/` stands for a line's end.
    fn write(&mut self, out: &mut String, text: &str) -> io::Result<()> {
        let text = text.replace(self.rt.alloc(), "/", "\n")?;
        let Some(journal) = &mut self.journal else {
            return Ok(write!(out, "nowhere ")?);
        };
        if write_all(journal, text.as_bytes()).is_err() {
            write!(out, "failed {} ", journal.faults)?;
        }
        Ok(())
    }

    // As much of a text as is taken at once.
    fn take(&mut self, out: &mut String, text: &str) -> io::Result<()> {
        let text = text.replace(self.rt.alloc(), "/", "\n")?;
        let Some(journal) = &mut self.journal else {
            return Ok(write!(out, "nowhere ")?);
        };
        Ok(write!(out, "{:?} ", journal.write(text.as_bytes()))?)
    }

    // What a file has, or nothing where it isn't there.
    fn push_file(&self, out: &mut String, name: &str) -> io::Result<()> {
        match fs::read_to_string(&self.rt, name) {
            Ok(text) => {
                let text = text.replace(self.rt.alloc(), "\n", "/")?;
                Ok(write!(out, " {text:?}")?)
            }
            Err(error) if error.kind() == ErrorKind::NotFound => Ok(write!(out, " none")?),
            Err(_) => Ok(write!(out, " unreadable")?),
        }
    }

    fn push_files(&self, out: &mut String) -> io::Result<()> {
        for number in 1..5u32 {
            let name = format!(in self.rt.alloc(); "{}.{number}", self.file)?;
            self.push_file(out, name.as_str())?;
        }
        write!(out, " and")?;
        self.push_file(out, self.file.as_str())
    }
}

/// Behind how many bytes a file ends, how many earlier ones are kept, which is 0 for all, and what is done: a run begins, or text is
/// written. What the first four files have, and the last one.
pub fn journal_shown<R: Outside + Files>(rt: R, row: &str) -> io::Result<String> {
    let mut out = String::new(rt.alloc());
    let (limit, row) = row.split_once(' ').unwrap_or((row, ""));
    let (keep, row) = row.split_once(' ').unwrap_or((row, ""));
    let keep = keep.parse::<u64>().unwrap_or(0);
    let folder = free_folder(&rt)?;
    let mut scene = Scene {
        rt,
        file: format!(in rt.alloc(); "{folder}/journal")?,
        limit: limit.parse::<u64>().unwrap_or(0),
        keep: if keep > 0 { Some(keep) } else { None },
        journal: None,
    };
    for step in row.split(' ') {
        match step.split_once('-').unwrap_or((step, "")) {
            ("run", _) => scene.restart(&mut out)?,
            ("take", text) => scene.take(&mut out, text)?,
            ("lose", _) => fs::remove_dir_all(&rt, folder.as_str())?,
            (_, text) => scene.write(&mut out, text)?,
        }
    }
    scene.push_files(&mut out)?;
    let _ = fs::remove_dir_all(&rt, folder.as_str());
    Ok(out)
}
