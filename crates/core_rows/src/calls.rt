// Calls by their words.
use crate::objects::{key, object, query};
use crate::texts::{parts, text, texts};
use cache_law::{Ban, Call, Condition, Health, TextField, TextOperator, TimeField, VclSource};
use directors::{DirectorKind, Member, Target};
use row_settings::{count, has, number, setting, signed, value};
use std::alloc::{AllocError, Global};
use units::{Sequence, Shared, Text};
use vcl_values::Comparison;

/// The call that the words say: its name, and what it is asked with.
pub fn call(alloc: Global, line: &str) -> Result<Option<Call>, AllocError> {
    let (name, words) = line.split_once(' ').unwrap_or((line, ""));
    match name {
        "lookup" => lookup(alloc, words),
        "insert" => insert(alloc, words),
        "purge" => purge(alloc, words),
        "xkey" => xkey(alloc, words),
        "ban" => ban_call(alloc, words),
        "pick" => pick(alloc, words),
        "set_health" => set_health(alloc, words),
        "load" => load(alloc, words),
        "switch" => switch(alloc, words),
        "discard" => discard(alloc, words),
        _ => Ok(plain(name, words)),
    }
}

// A call that is asked with a number at most.
fn plain(name: &str, words: &str) -> Option<Call> {
    match name {
        "begin" => Some(Call::Begin),
        "draw" => Some(Call::Draw),
        "drop" => Some(Call::Drop {
            token: number(words, "token", 0),
        }),
        "end" => Some(Call::End),
        "ban_list" => Some(Call::BanList),
        "vcl_list" => Some(Call::VclList),
        _ => None,
    }
}

fn lookup(alloc: Global, words: &str) -> Result<Option<Call>, AllocError> {
    Ok(Some(Call::Lookup(query(alloc, words)?)))
}

fn insert(alloc: Global, words: &str) -> Result<Option<Call>, AllocError> {
    let object = object(alloc, words)?;
    let token = number(words, "token", 0);
    let stale = count(words, "stale");
    Ok(Some(Call::Insert {
        token,
        object,
        stale,
    }))
}

fn purge(alloc: Global, words: &str) -> Result<Option<Call>, AllocError> {
    let key = key(alloc, words)?;
    Ok(Some(Call::Purge { key }))
}

fn xkey(alloc: Global, words: &str) -> Result<Option<Call>, AllocError> {
    let keys = texts(alloc, words, "keys")?;
    let soft = has(words, "soft");
    Ok(Some(Call::Xkey { keys, soft }))
}

fn pick(alloc: Global, words: &str) -> Result<Option<Call>, AllocError> {
    let target = target(alloc, words)?;
    let vcl = setting(words, "vcl").parse::<u32>().unwrap_or(0);
    let word = number(words, "word", 0);
    Ok(Some(Call::Pick { vcl, target, word }))
}

fn set_health(alloc: Global, words: &str) -> Result<Option<Call>, AllocError> {
    let backend = text(alloc, words, "name")?;
    let health = health(words);
    Ok(Some(Call::SetHealth { backend, health }))
}

fn switch(alloc: Global, words: &str) -> Result<Option<Call>, AllocError> {
    let name = text(alloc, words, "name")?;
    Ok(Some(Call::Switch { name }))
}

fn discard(alloc: Global, words: &str) -> Result<Option<Call>, AllocError> {
    let name = text(alloc, words, "name")?;
    Ok(Some(Call::Discard { name }))
}

// `request=NAME` is the ban `req.http.NAME == 1`, `object=NAME` is `obj.http.NAME == 1`, `ttl_over=60000` is `obj.ttl > 60s`; else it has
// no condition.
fn ban_call(alloc: Global, words: &str) -> Result<Option<Call>, AllocError> {
    let ban = Shared::new(alloc, ban(alloc, words)?)?;
    Ok(Some(Call::Ban(ban)))
}

fn ban(alloc: Global, words: &str) -> Result<Ban, AllocError> {
    let conditions = conditions(alloc, words)?;
    let words = texts(alloc, words, "words")?;
    Ok(Ban { words, conditions })
}

fn conditions(alloc: Global, words: &str) -> Result<Sequence<Condition>, AllocError> {
    let mut conditions = Sequence::new(alloc);
    if let Some(milliseconds) = signed(words, "ttl_over") {
        conditions.push(Condition::OnTime {
            field: TimeField::Ttl,
            comparison: Comparison::Greater,
            milliseconds,
        })?;
    }
    if let Some(name) = value(words, "request") {
        let name = Text::of(alloc, name.as_bytes())?;
        conditions.push(is_one(alloc, TextField::RequestHeader(name))?)?;
    }
    if let Some(name) = value(words, "object") {
        let name = Text::of(alloc, name.as_bytes())?;
        conditions.push(is_one(alloc, TextField::ObjectHeader(name))?)?;
    }
    Ok(conditions)
}

fn is_one(alloc: Global, field: TextField) -> Result<Condition, AllocError> {
    let argument = Text::of(alloc, b"1")?;
    Ok(Condition::OnText {
        field,
        operator: TextOperator::Equal,
        argument,
    })
}

fn target(alloc: Global, words: &str) -> Result<Shared<Target>, AllocError> {
    let members = members(alloc, setting(words, "members"))?;
    let name = text(alloc, words, "name")?;
    let kind = kind(setting(words, "kind"));
    Shared::new(
        alloc,
        Target {
            kind,
            name,
            members,
        },
    )
}

fn kind(word: &str) -> DirectorKind {
    match word {
        "round_robin" => DirectorKind::RoundRobin,
        "fallback" => DirectorKind::Fallback,
        "random" => DirectorKind::Random,
        "hash" => DirectorKind::Hash,
        _ => DirectorKind::One,
    }
}

// Names with their weights, as in `a:1,b:2`.
fn members(alloc: Global, list: &str) -> Result<Sequence<Member>, AllocError> {
    let mut members = Vec::new(alloc);
    for part in list.split(',') {
        if let Some((name, weight)) = part.split_once(':') {
            members.push(member(alloc, name, weight)?)?;
        }
    }
    Ok(Sequence::from_vec(members))
}

fn member(alloc: Global, name: &str, weight: &str) -> Result<Member, AllocError> {
    let name = Text::of(alloc, name.as_bytes())?;
    let weight = weight.parse::<u32>().unwrap_or(0);
    Ok(Member { name, weight })
}

fn health(words: &str) -> Health {
    if has(words, "sick") {
        Health::Sick
    } else if has(words, "healthy") {
        Health::Healthy
    } else {
        Health::Auto
    }
}

// A VCL has the backends a and b where the words name none.
fn load(alloc: Global, words: &str) -> Result<Option<Call>, AllocError> {
    let name = text(alloc, words, "name")?;
    let text = Text::of(alloc, b"vcl 4.1;")?;
    let backends = parts(alloc, value(words, "backends").unwrap_or("a,b"))?;
    let source = VclSource {
        name,
        text,
        backends,
    };
    Ok(Some(Call::Load(Shared::new(alloc, source)?)))
}
