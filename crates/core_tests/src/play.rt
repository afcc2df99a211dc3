// Random steps, one after another.
use crate::dice::Dice;
use crate::moves::{Move, Opened, next_move};
use crate::tally::Tally;
use crate::twins::{Answer, Twins, are_alike};
use row_settings::number;
use std::alloc::{AllocError, Global};

/// How many fetches are remembered that were opened.
const REMEMBERED: usize = 8;

/// A game: the two caches, how late it is, which fetches were opened, and how often each call and each answer came.
#[derive(Drop)]
struct Game {
    dice: Dice,
    twins: Twins,
    moment: u64,
    opened: Vec<Opened>,
    tally: Tally,
}

/// What is said of steps, and how often each call and each answer came among them.
#[derive(Drop)]
pub struct Played {
    pub said: String,
    pub counts: String,
}

/// Plays `steps` steps from the `seed`. It is said which calls and answers came fewer than `least` times; or the first step that the two
/// answered otherwise, with which the game ends.
pub fn play(alloc: Global, row: &str) -> Result<Played, AllocError> {
    let mut game = Game {
        dice: Dice::new(number(row, "seed", 0)),
        twins: Twins::new(alloc, number(row, "room", 0))?,
        moment: 0,
        opened: Vec::new(alloc),
        tally: Tally::new(alloc)?,
    };
    let said = match play_all(alloc, &mut game, number(row, "steps", 0))? {
        Some(difference) => difference,
        None => game.tally.said(alloc, number(row, "least", 0))?,
    };
    let counts = game.tally.counts(alloc)?;
    Ok(Played { said, counts })
}

fn play_all(alloc: Global, game: &mut Game, steps: u64) -> Result<Option<String>, AllocError> {
    for at in 0..steps {
        if let Some(said) = go_on(alloc, game, at)? {
            return Ok(Some(said));
        }
    }
    Ok(None)
}

// One more step, with the lurker's behind it; what was answered otherwise, if anything was.
fn go_on(alloc: Global, game: &mut Game, at: u64) -> Result<Option<String>, AllocError> {
    game.moment = game.moment.saturating_add(game.dice.below(6));
    if at % 190 == 189 {
        return close_and_reopen(alloc, game);
    }
    let next = next_move(alloc, &mut game.dice, game.moment, &game.opened)?;
    if let Some(said) = make_move(alloc, game, &next)? {
        return Ok(Some(said));
    }
    if game.dice.below(6) == 0 {
        let swept = game.twins.lurk(alloc, 1)?;
        if swept > 0 {
            game.tally.add("swept");
        }
    }
    if game.dice.below(4) == 0 {
        settle(alloc, game)?;
    }
    Ok(None)
}

fn make_move(alloc: Global, game: &mut Game, next: &Move) -> Result<Option<String>, AllocError> {
    let words = next.words.as_str();
    let (flat, lazy) = game.twins.ask(alloc, next.caller, game.moment, words)?;
    if !are_alike(&flat, &lazy) {
        return Ok(Some(difference(alloc, next, &flat, &lazy)?));
    }
    if flat.word == "waits" {
        return Ok(None);
    }
    let (call, _) = words.split_once(' ').unwrap_or((words, ""));
    game.tally.add(call);
    game.tally.add(flat.word);
    if flat.word != "stale gone" {
        forget(&mut game.opened, next.closes);
    }
    if let Some((token, stale)) = flat.opened {
        let caller = next.caller;
        let key = next.key;
        remember(
            &mut game.opened,
            Opened {
                caller,
                token,
                key,
                stale,
            },
        )?;
    }
    Ok(None)
}

fn remember(opened: &mut Vec<Opened>, fetch: Opened) -> Result<(), AllocError> {
    if opened.len() >= REMEMBERED {
        opened.remove(0);
    }
    opened.push(fetch)?;
    Ok(())
}

// The fetch of the token, if one is named, is open no more.
fn forget(opened: &mut Vec<Opened>, closed: Option<u64>) {
    let Some(token) = closed else {
        return;
    };
    if let Some(at) = opened.iter().position(|fetch| fetch.token == token) {
        opened.remove(at);
    }
}

fn difference(
    alloc: Global,
    next: &Move,
    flat: &Answer,
    lazy: &Answer,
) -> Result<String, AllocError> {
    let (caller, words) = (next.caller, next.words.as_str());
    let (word, (first, second)) = (flat.word, flat.numbers);
    let (late, (third, fourth)) = (lazy.word, lazy.numbers);
    format!(in alloc; "{caller} {words}: {word} {first} {second}, {late} {third} {fourth}")
}

fn settle(alloc: Global, game: &mut Game) -> Result<(), AllocError> {
    let between = u32::try_from(game.dice.below(2)).unwrap_or(0);
    if let Some((first, second)) = game.twins.settle(alloc, between)? {
        game.tally
            .add(if first { "settled" } else { "not settled" });
        game.tally
            .add(if second { "settled" } else { "not settled" });
    }
    Ok(())
}

// Closes what is open, reopens both, and opens a round of each caller.
fn close_and_reopen(alloc: Global, game: &mut Game) -> Result<Option<String>, AllocError> {
    for at in 0..game.opened.len() {
        let Some(fetch) = opened_at(game, at) else {
            break;
        };
        let words = format!(in alloc; "drop token={}", fetch.token)?;
        let next = Move {
            caller: fetch.caller,
            key: "",
            words,
            closes: None,
        };
        if let Some(said) = make_move(alloc, game, &next)? {
            return Ok(Some(said));
        }
    }
    end_rounds(alloc, game)
}

fn opened_at(game: &Game, at: usize) -> Option<Opened> {
    match game.opened.get(at) {
        Some(fetch) => Some(*fetch),
        None => None,
    }
}

fn end_rounds(alloc: Global, game: &mut Game) -> Result<Option<String>, AllocError> {
    if let Some(said) = each_says(alloc, game, "end")? {
        return Ok(Some(said));
    }
    if game.twins.reopen(alloc)? {
        game.tally.add("reopened");
    }
    each_says(alloc, game, "begin")
}

// Each caller makes the call.
fn each_says(alloc: Global, game: &mut Game, words: &str) -> Result<Option<String>, AllocError> {
    for caller in 0..3 {
        let next = Move {
            caller,
            key: "",
            words: format!(in alloc; "{words}")?,
            closes: None,
        };
        if let Some(said) = make_move(alloc, game, &next)? {
            return Ok(Some(said));
        }
    }
    Ok(None)
}
