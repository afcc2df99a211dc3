// What the words of the command line ask for.
ghost use Rattle.std.specs.Prelude.{◌≡◌, ◌↔◌, false, ◌∷◌, [], ℕ, IsTrue, IfOk, OnErr, MatchOption};
ghost use Rattle.cache_law.specs.declared.setting.Params.{Params as Limits};
ghost use Rattle.varn_program.specs.Words.{AsksReplay, Gives, IsHistory, IsOption, IsRoom};

use crate::limits::read_limits;
use cache_law::Params;
use std::alloc::{AllocError, Global};
use units::{Text, read_number};

/// The greatest room and the greatest history.
const MOST: u64 = 1_073_741_824;

const ROOM: &[u8] = b"--room";

const HISTORY: &[u8] = b"--history";

fn is_word(word: &Text, wanted: &[u8]) -> bool
    ensures { IsTrue result ↔ (word.now ≡ wanted.now) }
{
    word.bytes() == wanted
}

// The number that an option of this name has, if the two words are such an option.
fn number_of(wanted: &[u8], name: &Text, value: &Text) -> Option<u64>
    ensures { MatchOption result ((number : ℕ) → IsOption wanted.now name.now value.now number → ⊥) (IsOption wanted.now name.now value.now) }
{
    if !is_word(name, wanted) {
        return None;
    }
    let number = read_number(value.bytes())?;
    if number > MOST {
        return None;
    }
    Some(number)
}

// The limits by one option.
fn limits_by_one(name: &Text, value: &Text) -> Option<Params>
    ensures { MatchOption result ((room history : ℕ) → Gives (name.now ∷ value.now ∷ []) room history → ⊥) (λ params. Gives (name.now ∷ value.now ∷ []) params.room params.history × (params.segments ≡ false)) }
{
    if let Some(room) = number_of(ROOM, name, value) {
        return Some(Params {
            room,
            history: Params::DEFAULT_HISTORY,
            segments: false,
        });
    }
    let history = number_of(HISTORY, name, value)?;
    Some(Params {
        room: Params::DEFAULT_ROOM,
        history,
        segments: false,
    })
}

// The limits by the option of the room and that of the history.
fn limits_by_both(room: (&Text, &Text), history: (&Text, &Text)) -> Option<Params>
    ensures { MatchOption result
        ((most held : ℕ) → IsRoom room.entry.0.now room.entry.1.now most → IsHistory history.entry.0.now history.entry.1.now held → ⊥)
        (λ params. IsRoom room.entry.0.now room.entry.1.now params.room × IsHistory history.entry.0.now history.entry.1.now params.history × (params.segments ≡ false)) }
{
    let most = number_of(ROOM, room.0, room.1)?;
    let held = number_of(HISTORY, history.0, history.1)?;
    Some(Params {
        room: most,
        history: held,
        segments: false,
    })
}

// The limits that the options give.
fn limits_by(options: &[Text]) -> Option<Params>
    ensures { MatchOption result ((room history : ℕ) → Gives options.now room history → ⊥) (λ params. Gives options.now params.room params.history × (params.segments ≡ false)) }
{
    match options {
        [] => Some(Params {
            room: Params::DEFAULT_ROOM,
            history: Params::DEFAULT_HISTORY,
            segments: false,
        }),
        [name, value] => limits_by_one(name, value),
        [name, value, other, number] => match limits_by_both((name, value), (other, number)) {
            Some(params) => Some(params),
            None => limits_by_both((other, number), (name, value)),
        },
        _ => None,
    }
}

// The limits of the replay that the words ask for, if they do, by the grammar alone.
fn tested(words: &[Text]) -> Option<Params>
    ensures { MatchOption result ((params : Limits) → AsksReplay words.now params → ⊥) (AsksReplay words.now) }
{
    match words {
        [command, options @ ..] => {
            if is_word(command, b"replay") {
                limits_by(options)
            } else {
                None
            }
        }
        [] => None,
    }
}

/// The limits of the replay that the words ask for, if they do. Memory is wanted only where they do.
pub(crate) fn asked(alloc: Global, words: &[Text]) -> Result<Option<Params>, AllocError>
    ensures asked { IfOk result (λ found. MatchOption found ((params : Limits) → AsksReplay words.now params → ⊥) (AsksReplay words.now)) }
    ensures wanting { OnErr result ((params : Limits) × AsksReplay words.now params) }
{
    match tested(words) {
        Some(_) => Ok(Some(read_limits(alloc, words)?)),
        None => Ok(None),
    }
}

// The first word at which options leave the grammar. None where they lack a value at their end, or leave it nowhere.
fn fault_among(options: &[Text]) -> Option<&Text> {
    let mut room = false;
    let mut history = false;
    for pair in options.chunks(2) {
        if let [name, rest @ ..] = pair {
            let known = if is_word(name, ROOM) {
                !room
            } else {
                is_word(name, HISTORY) && !history
            };
            if !known {
                return Some(name);
            }
            room = room || is_word(name, ROOM);
            history = history || is_word(name, HISTORY);
            if let [value] = rest {
                match read_number(value.bytes()) {
                    Some(number) if number <= MOST => {}
                    _ => return Some(value),
                }
            }
        }
    }
    None
}

/// The first word that is none of a command, of its options or of their values. None where a word is wanting.
pub fn faulty_word(words: &[Text]) -> Option<&Text> {
    match words {
        [command, options @ ..] => {
            if is_word(command, b"replay") {
                fault_among(options)
            } else {
                Some(command)
            }
        }
        [] => None,
    }
}
