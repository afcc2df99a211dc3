// What the words ask for.
ghost use Rattle.std.specs.Prelude.{◌≡◌, ◌≢◌, ◌∷◌, [], MatchOption};
ghost use Rattle.measure.specs.Tasks.{Says, shape_name};
ghost use Rattle.measure.specs.declared.task.Task.{Task};
ghost use Rattle.measure.specs.declared.task.Shape.{Shape};

use units::{Text, read_number};

/// Where the body of the input ends.
#[derive(Clone, Copy, Debug, PartialEq, Eq)]
pub enum Shape {
    /// With its last chunk.
    Chunked,
    /// With the input.
    Sized,
}

/// What is to be counted.
#[derive(Clone, Copy, Debug, PartialEq, Eq)]
pub enum Task {
    /// The bytes of a body, fed in pieces of so many bytes.
    Bodies { shape: Shape, piece: u64 },
    /// The tokens of a VCL text.
    Tokens,
}

/// The task that the words name: `bodies chunked PIECE`, `bodies sized PIECE` or `tokens`, where PIECE is
/// a number over 0. None for other words.
pub fn task_of(words: &[Text]) -> Option<Task>
    ensures { MatchOption result ((task : Task) → ¬ (Says words.now task)) (λ task. Says words.now task) }
{
    match words {
        [word] => tokens_task(word.bytes()),
        [word, shape, piece] => bodies_task(word.bytes(), shape.bytes(), piece.bytes()),
        _ => None,
    }
}

fn tokens_task(word: &[u8]) -> Option<Task>
    ensures { MatchOption result ((task : Task) → ¬ (Says (word.now ∷ []) task)) (λ task. Says (word.now ∷ []) task) }
{
    if word == b"tokens".as_slice() {
        Some(Task::Tokens)
    } else {
        None
    }
}

fn bodies_task(word: &[u8], shape: &[u8], piece: &[u8]) -> Option<Task>
    ensures { MatchOption result ((task : Task) → ¬ (Says (word.now ∷ shape.now ∷ piece.now ∷ []) task))
        (λ task. Says (word.now ∷ shape.now ∷ piece.now ∷ []) task) }
{
    if word != b"bodies".as_slice() {
        return None;
    }
    let shape = shape_of(shape)?;
    match read_number(piece) {
        Some(0) => None,
        Some(piece) => Some(Task::Bodies { shape, piece }),
        None => None,
    }
}

fn shape_of(name: &[u8]) -> Option<Shape>
    ensures { MatchOption result ((shape : Shape) → name.now ≢ shape_name shape) (λ shape. name.now ≡ shape_name shape) }
{
    if name == b"chunked".as_slice() {
        Some(Shape::Chunked)
    } else if name == b"sized".as_slice() {
        Some(Shape::Sized)
    } else {
        None
    }
}
