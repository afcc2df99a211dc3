// Files of earlier journals, each with a number behind the name of the journal's file.

use edge::{Outside, tell};
use std::alloc::AllocError;
use std::fs;
use std::io::{self, ErrorKind};
use std::rt::Files;

// The folder of a file, and its name there.
fn folder_and_name(file: &str) -> (&str, &str) {
    match file.rsplit_once('/') {
        Some(("", name)) => ("/", name),
        Some((folder, name)) => (folder, name),
        None => (".", file),
    }
}

// The number of an earlier file, by its name and that of the journal's file.
fn number_of(name: &str, journal: &str) -> Option<u64> {
    let digits = name.strip_prefix(journal)?.strip_prefix('.')?;
    if digits.starts_with('0') || !digits.bytes().all(|digit| digit.is_ascii_digit()) {
        return None;
    }
    digits.parse::<u64>().ok()
}

// The numbers of all earlier files, in their order. A name that isn't UTF-8 is that of none.
fn numbers<R: Outside + Files>(rt: &R, file: &str) -> io::Result<Vec<u64>> {
    let (folder, journal) = folder_and_name(file);
    let mut numbers = Vec::new(rt.alloc());
    for entry in fs::read_dir(rt, folder)? {
        match entry {
            Ok(entry) => {
                if let Some(number) = number_of(entry.file_name(), journal) {
                    numbers.push(number)?;
                }
            }
            Err(error) if error.kind() == ErrorKind::InvalidFilename => {}
            Err(error) => return Err(error),
        }
    }
    numbers.sort()?;
    Ok(numbers)
}

fn numbered<R: Outside>(rt: &R, file: &str, number: u64) -> Result<String, AllocError> {
    format!(in rt.alloc(); "{file}.{number}")
}

// Removes the files with these numbers.
fn remove<R: Outside + Files>(rt: &R, file: &str, numbers: &[u64]) -> io::Result<()> {
    for number in numbers {
        fs::remove_file(rt, numbered(rt, file, *number)?.as_str())?;
    }
    Ok(())
}

// The numbers of the oldest files, but for so many of the latest.
fn oldest(numbers: &[u64], keep: Option<u64>) -> &[u64] {
    let Some(keep) = keep else {
        return &[];
    };
    let kept = usize::try_from(keep).unwrap_or(usize::MAX);
    &numbers[..numbers.len().saturating_sub(kept)]
}

/// Gives a journal's file, if it is there, the first number behind those of earlier ones, so that their order is that of the text; and
/// removes the oldest but for so many, if that is told.
pub(crate) fn put_away<R: Outside + Files>(
    rt: &R,
    file: &str,
    keep: Option<u64>,
) -> io::Result<()> {
    if !fs::exists(rt, file)? {
        return Ok(());
    }
    let mut numbers = numbers(rt, file)?;
    let last = numbers.last().copied().unwrap_or(0);
    let number = last
        .checked_add(1)
        .ok_or(io::Error::from(ErrorKind::AlreadyExists))?;
    numbers.push(number)?;
    fs::rename(rt, file, numbered(rt, file, number)?.as_str())?;
    if remove(rt, file, oldest(numbers.as_slice(), keep)).is_err() {
        tell(rt, "a file of an earlier journal can't be removed");
    }
    Ok(())
}
