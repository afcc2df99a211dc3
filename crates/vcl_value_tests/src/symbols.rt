// Where names stand, and what calls lead to.
use std::alloc::{AllocError, Global};
use vcl_symbols::{Call, CallGraph, NameIndex};

/// Where the first name is found among the names behind it, and how many these are.
pub fn place_shown(alloc: Global, row: &str) -> Result<String, AllocError> {
    let (name, list) = row.split_once('|').unwrap_or((row, ""));
    let mut names = Vec::new(alloc);
    for listed in list.split('|') {
        names.push(listed.as_bytes())?;
    }
    let index = NameIndex::of(alloc, names)?;
    let place = index.find(name.as_bytes());
    let count = index.len();
    format!(in alloc; "{place:?} of {count}")
}

/// The subroutines to which calls lead from the first; or how many, of a long list.
pub fn reached_shown(alloc: Global, row: &str) -> Result<String, AllocError> {
    let (from, rest) = row.split_once(' ').unwrap_or((row, ""));
    let from = number_of(from);
    match graph_of(alloc, rest)? {
        Some(graph) if from < graph.count => {
            let marks = graph.reached(alloc, from)?;
            marks_shown(alloc, marks.as_slice())
        }
        _ => format!(in alloc; "no such subroutine"),
    }
}

/// The place of the first call on a circle.
pub fn circle_shown(alloc: Global, row: &str) -> Result<String, AllocError> {
    match graph_of(alloc, row)? {
        Some(graph) => {
            let place = graph.first_on_circle(alloc)?;
            format!(in alloc; "{place:?}")
        }
        None => format!(in alloc; "no such subroutine"),
    }
}

// The number of subroutines, and the calls between them; None where one is of a subroutine that there isn't.
fn graph_of(alloc: Global, row: &str) -> Result<Option<CallGraph>, AllocError> {
    let (count, words) = row.split_once(' ').unwrap_or((row, ""));
    let calls = calls_of(alloc, words)?;
    graph_between(alloc, number_of(count), calls.as_slice())
}

fn graph_between(
    alloc: Global,
    count: usize,
    calls: &[Call],
) -> Result<Option<CallGraph>, AllocError> {
    if calls
        .iter()
        .all(|call| call.from < count && call.to < count)
    {
        let graph = CallGraph::of(alloc, count, calls.to_vec(alloc)?)?;
        return Ok(Some(graph));
    }
    Ok(None)
}

// `0>2@7` is a call of 2 by 0 at the place 7, and `0..9@7` are nine calls there, each of the next number, up or down.
fn calls_of(alloc: Global, words: &str) -> Result<Vec<Call>, AllocError> {
    let mut calls = Vec::new(alloc);
    for word in words.split(' ') {
        let (ends, place) = word.split_once('@').unwrap_or((word, ""));
        let place = place.parse::<u32>().unwrap_or(0);
        if let Some((from, to)) = ends.split_once('>') {
            calls.push(Call {
                from: number_of(from),
                to: number_of(to),
                place,
            })?;
        } else if let Some((first, last)) = ends.split_once("..") {
            push_chain(&mut calls, number_of(first), number_of(last), place)?;
        }
    }
    Ok(calls)
}

fn push_chain(
    calls: &mut Vec<Call>,
    first: usize,
    last: usize,
    place: u32,
) -> Result<(), AllocError> {
    let mut from = first;
    for _ in 0..first.abs_diff(last) {
        let to = if first < last {
            from.wrapping_add(1)
        } else {
            from.wrapping_sub(1)
        };
        calls.push(Call { from, to, place })?;
        from = to;
    }
    Ok(())
}

fn number_of(word: &str) -> usize {
    word.parse::<usize>().unwrap_or(0)
}

fn marks_shown(alloc: Global, marks: &[bool]) -> Result<String, AllocError> {
    let mut out = String::new(alloc);
    let count = marks.iter().filter(|mark| **mark).count();
    write!(out, "{count}:")?;
    if count < 100 {
        push_marked(&mut out, marks)?;
    }
    Ok(out)
}

fn push_marked(out: &mut String, marks: &[bool]) -> Result<(), AllocError> {
    for (subroutine, mark) in marks.iter().enumerate() {
        if *mark {
            write!(out, " {subroutine}")?;
        }
    }
    Ok(())
}
