// What directors choose, and the words of keys.
use directors::{DirectorKind, Members, choose, key_word};
use std::alloc::{AllocError, Global};
use units::Text;

/// The place that a kind of director chooses of members with these weights, by its counter and its word.
pub fn choice_shown(alloc: Global, row: &str) -> Result<String, AllocError> {
    let mut words = row.split(' ');
    let kind = kind_of(words.next().unwrap_or(""));
    let members = members_of(alloc, words.next().unwrap_or(""))?;
    let next = number_of(words.next());
    let word = number_of(words.next());
    let place = choose(kind, &members, next, word);
    format!(in alloc; "{place:?}")
}

fn kind_of(name: &str) -> DirectorKind {
    match name {
        "one" => DirectorKind::One,
        "round_robin" => DirectorKind::RoundRobin,
        "fallback" => DirectorKind::Fallback,
        "random" => DirectorKind::Random,
        _ => DirectorKind::Hash,
    }
}

fn number_of(word: Option<&str>) -> u64 {
    word.unwrap_or("").parse::<u64>().unwrap_or(0)
}

// The members with these weights, between which commas stand; `-` for none.
fn members_of(alloc: Global, words: &str) -> Result<Members, AllocError> {
    let mut weights = Vec::new(alloc);
    for word in words.split(',').filter(|word| *word != "-") {
        weights.push(word.parse::<u32>().unwrap_or(0))?;
    }
    Ok(Members::from_vec(weights))
}

/// The word of a key, and the place that a hash director with three healthy members chooses by it.
pub fn key_shown(alloc: Global, key: &str) -> Result<String, AllocError> {
    let word = key_word(&Text::of(alloc, key.as_bytes())?);
    let members = members_of(alloc, "1,1,1")?;
    let place = choose(DirectorKind::Hash, &members, 0, word);
    format!(in alloc; "{word:016x} {place:?}")
}
