// Steps on objects with their handles: `put HANDLE NUMBER PAYLOAD KEY`, `take HANDLE`, `drop HANDLES`, `get HANDLE`,
// `find KEY`, `number NUMBER`, `from HANDLE`, `pay HANDLE PAYLOAD`, `hit HANDLE` and `age HANDLE LIFETIME`. An object is a
// marker, and an item is said as its number, its key, its lifetime, its hits and its payload.
ghost use Rattle.std.specs.Prelude.{◌≡◌, IfOk};
ghost use Rattle.cache_law.specs.Object.{key_of};

use crate::markers::marker;
use crate::steps::Container;
use crate::words::{first_word, number, numbers, say_numbers, say_texts, texts};
use cache_law::{Object, ObjectView};
use object_heads::{Heads, Item};
use std::alloc::{AllocError, Global};
use units::{Sequence, Shared};

impl Container for Heads<u64> {
    fn say_step(&mut self, alloc: Global, step: &str, out: &mut String) -> Result<(), AllocError> {
        let (word, rest) = first_word(step);
        match word {
            "put" => put(alloc, self, rest, out),
            "take" => match self.take(number(rest)) {
                Some(item) => say_item(out, &item),
                None => out.push_str("none"),
            },
            "get" => match self.get(number(rest)) {
                Some(item) => say_item(out, item),
                None => out.push_str("none"),
            },
            "drop" => {
                self.drop_all(numbers(alloc, rest)?.as_slice());
                out.push_str("dropped")
            }
            "find" => {
                let found = self.find(alloc, texts(alloc, rest)?.as_slice())?;
                say_numbers(out, found.as_slice())
            }
            "number" => say_handle(out, self.handle_of(number(rest))),
            "from" => say_handle(out, self.first_from(number(rest))),
            _ => change(alloc, self, word, rest, out),
        }
    }
}

fn change(
    alloc: Global,
    heads: &mut Heads<u64>,
    word: &str,
    rest: &str,
    out: &mut String,
) -> Result<(), AllocError> {
    let (handle, rest) = first_word(rest);
    let handle = number(handle);
    match word {
        "pay" => heads.set_payload(handle, number(rest)),
        "hit" => heads.count_hit(handle),
        "age" => age(alloc, heads, handle, rest.parse().unwrap_or(0))?,
        _ => return out.push_str("no such step"),
    }
    out.push_str("done")
}

// Puts a marker of another lifetime in the place of the handle's.
fn age(
    alloc: Global,
    heads: &mut Heads<u64>,
    handle: u64,
    lifetime: i64,
) -> Result<(), AllocError> {
    let Some(item) = heads.get(handle) else {
        return Ok(());
    };
    let object = aged(alloc, &item.view.object, lifetime)?;
    heads.set_object(handle, object);
    Ok(())
}

fn aged(alloc: Global, object: &Object, lifetime: i64) -> Result<Shared<Object>, AllocError>
    ensures { IfOk result (λ new. key_of new ≡ key_of object.now) }
{
    let mut key = Vec::new(alloc);
    for text in object.key() {
        key.push(text.copy()?)?;
    }
    marker(alloc, Sequence::from_vec(key), 200, lifetime)
}

fn put(
    alloc: Global,
    heads: &mut Heads<u64>,
    rest: &str,
    out: &mut String,
) -> Result<(), AllocError> {
    let (handle, rest) = first_word(rest);
    let handle = number(handle);
    if !heads.is_newest(handle) {
        return out.push_str("not newest");
    }
    let (own, rest) = first_word(rest);
    let own = number(own);
    if heads.handle_of(own).is_some() {
        return out.push_str("not its own number");
    }
    let (payload, key) = first_word(rest);
    let item = Item {
        view: ObjectView {
            number: own,
            hits: 0,
            object: marker(alloc, texts(alloc, key)?, 200, 0)?,
        },
        payload: number(payload),
    };
    heads.put_first(alloc, handle, item)?;
    out.push_str("put")
}

fn say_handle(out: &mut String, handle: Option<u64>) -> Result<(), AllocError> {
    match handle {
        Some(handle) => write!(out, "{handle}"),
        None => out.push_str("none"),
    }
}

fn say_item(out: &mut String, item: &Item<u64>) -> Result<(), AllocError> {
    write!(out, "{} [", item.view.number)?;
    say_texts(out, item.view.object.key())?;
    let lifetime = item.view.object.timing().ttl;
    write!(out, "] {lifetime} {} {}", item.view.hits, item.payload)
}
