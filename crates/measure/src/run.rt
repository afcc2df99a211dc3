// The top call.
ghost use Rattle.std.specs.Prelude.{◌≡◌, ◌≤◌, ℕ, length, IfOk, OnOk, IsErrOf};
ghost use Rattle.wire.specs.Causes.{Rose};
ghost use Rattle.measure.specs.Tasks.{IsCount};
ghost use Rattle.measure.specs.Runs.{Ends, code_of, input_limit, line_of};
ghost use Rattle.measure.specs.declared.count.CountError.TheVariants as Cause;
ghost use Rattle.measure.specs.declared.run.Status.{Status};

use crate::count::{CountError, count};
use crate::task::{Task, task_of};
use std::alloc::{AllocError, Global};
use units::{Text, push_number};
use wire::{ReadError, Sink, Source, read_all, write_all};

/// The most bytes of the input.
const INPUT_LIMIT: usize = 67_108_864;

/// How a run ended.
#[derive(Clone, Copy, Debug, PartialEq, Eq)]
pub enum Status {
    /// The number was written.
    Done,
    /// The words name no task.
    Words,
    /// The input is refused.
    Refused,
    /// The source failed.
    ReadFault,
    /// The sink failed.
    WriteFault,
    NoMemory,
}

impl Status {
    /// The number that the program ends with.
    pub fn code(self) -> u8
        ensures { result ≡ code_of self }
    {
        match self {
            Status::Done => 0,
            Status::Words => 2,
            Status::Refused => 3,
            Status::ReadFault => 4,
            Status::WriteFault => 5,
            Status::NoMemory => 6,
        }
    }
}

/// Does what the words say with all that the source has, and writes the number to the sink.
pub fn run<S: Source, K: Sink>(
    alloc: Global,
    words: &[Text],
    source: &mut S,
    sink: &mut K,
) -> Status
    ensures ends { Ends words.now (S.left source.old) (S.left source.new) (K.held sink.old) (K.held sink.new) result }
    ensures read_fault { result ≡ Status.ReadFault → Rose (S.faults source.old) (S.faults source.new) }
    ensures write_fault { result ≡ Status.WriteFault → Rose (K.faults sink.old) (K.faults sink.new) }
{
    let task = match task_of(words) {
        Some(task) => task,
        None => return Status::Words,
    };
    let input = match read_all(alloc, source, INPUT_LIMIT) {
        Ok(input) => input,
        Err(ReadError::Failed) => return Status::ReadFault,
        Err(ReadError::NoMemory) => return Status::NoMemory,
    };
    let line = match line_for(alloc, task, input) {
        Ok(line) => line,
        Err(CountError::Refused) => return Status::Refused,
        Err(CountError::NoMemory) => return Status::NoMemory,
    };
    match write_all(sink, line.as_slice()) {
        Ok(()) => Status::Done,
        Err(_) => Status::WriteFault,
    }
}

// The line with the number that the task asks for.
fn line_for(alloc: Global, task: Task, input: Vec<u8>) -> Result<Vec<u8>, CountError>
    ensures short { OnOk result (length input.items ≤ input_limit) }
    ensures line { IfOk result (λ line. (n : ℕ) × IsCount task input.items n × (line.items ≡ line_of n)) }
    ensures refused { IsErrOf result Cause.Refused → length input.items ≤ input_limit → (n : ℕ) → ¬ (IsCount task input.items n) }
{
    if input.len() > INPUT_LIMIT {
        return Err(CountError::Refused);
    }
    match count(alloc, task, input) {
        Ok(number) => Ok(number_line(alloc, number)?),
        Err(error) => Err(error),
    }
}

fn number_line(alloc: Global, number: u64) -> Result<Vec<u8>, AllocError>
    ensures { IfOk result (λ line. line.items ≡ line_of number) }
{
    let mut line = Vec::new(alloc);
    push_number(&mut line, alloc, number)?;
    line.push(b'\n')?;
    Ok(line)
}
