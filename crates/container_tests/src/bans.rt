// Steps on a list of bans and the objects among them: `ban MOMENT WORDS`, `put NUMBER WORDS`, `enter PLACE MARK`,
// `depart PLACE MARK`, `cut`, `keep`, `lines`, `newer NUMBER`, `at NUMBER`, `line AT`, `shown` and `test AT STATUS URL`.
use crate::ban_lines::{say_line_at, say_lines, say_shown, say_test};
use crate::steps::Container;
use crate::words::{first_word, number};
use ban_expr::read;
use ban_list::{BanList, Stand};
use cache_law::Ban;
use cli_words::split;
use std::alloc::{AllocError, Global};
use units::{Shared, Text};

impl Container for BanList {
    fn say_step(&mut self, alloc: Global, step: &str, out: &mut String) -> Result<(), AllocError> {
        let (word, rest) = first_word(step);
        match word {
            "ban" => issue(alloc, self, rest, out),
            "put" => put_first(alloc, self, rest, out),
            "enter" => enter(self, stand(rest), out),
            "depart" => depart(self, stand(rest), out),
            "cut" => {
                self.cut();
                write!(out, "{} left", self.len())
            }
            "keep" => {
                self.keep_needed();
                write!(out, "{} left", self.len())
            }
            "newer" => write!(out, "{}", self.count_newer(number(rest))),
            "at" => {
                let at = number(rest);
                write!(out, "{} {}", self.placed_at(at), self.marked_at(at))
            }
            _ => say(alloc, self, word, rest, out),
        }
    }
}

fn say(
    alloc: Global,
    bans: &BanList,
    word: &str,
    rest: &str,
    out: &mut String,
) -> Result<(), AllocError> {
    match word {
        "lines" => say_lines(bans, out),
        "line" => say_line_at(bans, rest, out),
        "shown" => say_shown(alloc, bans, out),
        "test" => say_test(alloc, bans, rest, out),
        _ => out.push_str("no such step"),
    }
}

fn stand(words: &str) -> Stand {
    let (place, mark) = first_word(words);
    Stand {
        place: number(place),
        mark: number(mark),
    }
}

fn ban_of(alloc: Global, words: &str) -> Result<Ban, AllocError> {
    let words = split(alloc, &Text::of(alloc, words.as_bytes())?).map_err(|_| AllocError)?;
    read(alloc, &words).map_err(|_| AllocError)
}

fn issue(
    alloc: Global,
    bans: &mut BanList,
    rest: &str,
    out: &mut String,
) -> Result<(), AllocError> {
    let (moment, words) = first_word(rest);
    if bans.issued() == u64::MAX {
        return out.push_str("no more bans");
    }
    let ban = Shared::new(alloc, ban_of(alloc, words)?)?;
    bans.issue(alloc, number(moment), &ban)?;
    write!(out, "ban {}", bans.issued())
}

fn put_first(
    alloc: Global,
    bans: &mut BanList,
    rest: &str,
    out: &mut String,
) -> Result<(), AllocError> {
    let (word, words) = first_word(rest);
    let number = number(word);
    if number <= bans.issued() {
        return out.push_str("not newer");
    }
    let ban = Shared::new(alloc, ban_of(alloc, words)?)?;
    bans.put_first(alloc, number, 0, &ban)?;
    write!(out, "ban {}", bans.issued())
}

fn enter(bans: &mut BanList, stand: Stand, out: &mut String) -> Result<(), AllocError> {
    if bans.objects() == u64::MAX {
        return out.push_str("no more objects");
    }
    bans.enter(stand);
    write!(out, "{} objects", bans.objects())
}

fn depart(bans: &mut BanList, stand: Stand, out: &mut String) -> Result<(), AllocError> {
    if bans.placed_at(stand.place) == 0 || bans.marked_at(stand.mark) == 0 {
        return out.push_str("nobody there");
    }
    bans.depart(stand);
    write!(out, "{} objects", bans.objects())
}
