// Steps on an index from xkeys to members: `put HANDLE KEYS`, `take HANDLE`, `drop HANDLES` and `find KEYS`.
use crate::steps::Container;
use crate::words::{first_word, number, numbers, say_numbers, say_texts, texts};
use std::alloc::{AllocError, Global};
use xkey_index::XkeyIndex;

impl Container for XkeyIndex {
    fn say_step(&mut self, alloc: Global, step: &str, out: &mut String) -> Result<(), AllocError> {
        let (word, rest) = first_word(step);
        match word {
            "put" => put(alloc, self, rest, out),
            "take" => match self.take(number(rest)) {
                Some(keys) => {
                    out.push('[')?;
                    say_texts(out, keys.as_slice())?;
                    out.push(']')
                }
                None => out.push_str("none"),
            },
            "drop" => {
                self.drop_all(numbers(alloc, rest)?.as_slice());
                out.push_str("dropped")
            }
            "find" => {
                let found = self.find(alloc, texts(alloc, rest)?.as_slice())?;
                say_numbers(out, found.as_slice())
            }
            _ => out.push_str("no such step"),
        }
    }
}

fn put(
    alloc: Global,
    index: &mut XkeyIndex,
    rest: &str,
    out: &mut String,
) -> Result<(), AllocError> {
    let (handle, keys) = first_word(rest);
    let handle = number(handle);
    if !index.is_newest(handle) {
        return out.push_str("not newest");
    }
    index.put_first(alloc, handle, texts(alloc, keys)?)?;
    out.push_str("put")
}
