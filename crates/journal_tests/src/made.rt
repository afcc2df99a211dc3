// Values that rows speak of.
use cache_law::{
    Call, Content, Entry, Object, ObjectView, Options, Query, Reply, RequestView, Response,
};
use freshness::Timing;
use http_heads::{Field, Fields};
use journal_text::entry_line;
use std::alloc::{AllocError, Global};
use units::{Sequence, Shared, Text};

pub fn text(alloc: Global, bytes: &str) -> Result<Text, AllocError> {
    Text::of(alloc, bytes.as_bytes())
}

pub fn texts(alloc: Global, items: &[&str]) -> Result<Sequence<Text>, AllocError> {
    let mut made = Vec::new(alloc);
    for item in items {
        made.push(Text::of(alloc, item.as_bytes())?)?;
    }
    Ok(Sequence::from_vec(made))
}

pub fn fields(alloc: Global, name: &str, value: &str) -> Result<Fields, AllocError> {
    let mut made = Vec::new(alloc);
    let name = text(alloc, name)?;
    let value = text(alloc, value)?;
    made.push(Field { name, value })?;
    Ok(Fields::from_vec(made))
}

pub fn object(alloc: Global) -> Result<Shared<Object>, AllocError> {
    let content = Content {
        key: texts(alloc, &["/a", "h"])?,
        vary: Sequence::new(alloc),
        varies_always: false,
        status: 200,
        reason: text(alloc, "OK")?,
        fields: fields(alloc, "X-Varnish", "2")?,
        body: text(alloc, "ok")?,
        xkeys: Sequence::new(alloc),
    };
    let response = Response {
        timing: Timing {
            origin: 0,
            ttl: 120_000,
            grace: 10_000,
            keep: 0,
        },
        content: Shared::new(alloc, content)?,
    };
    Shared::new(alloc, Object::Ordinary(response))
}

pub fn view(alloc: Global) -> Result<ObjectView, AllocError> {
    Ok(ObjectView {
        number: 2,
        hits: 1,
        object: object(alloc)?,
    })
}

pub fn query(alloc: Global) -> Result<Shared<Query>, AllocError> {
    let request = RequestView {
        url: text(alloc, "/a")?,
        fields: fields(alloc, "Host", "h")?,
    };
    let query = Query {
        key: texts(alloc, &["/a", "h"])?,
        request,
        options: Options::PLAIN,
    };
    Shared::new(alloc, query)
}

/// An entry of caller 1 at moment 0.
pub fn entry(call: Call, reply: Reply) -> Entry {
    Entry {
        caller: 1,
        moment: 0,
        call,
        reply,
    }
}

/// What stands on a side of the ` = ` of the line of an entry.
pub fn side(alloc: Global, call: Call, reply: Reply, behind: bool) -> Result<String, AllocError> {
    let line = entry_line(alloc, &entry(call, reply))?;
    let line = String::from_utf8_lossy(alloc, line.bytes())?;
    let (call, reply) = line.split_once(" = ").unwrap_or(("", ""));
    String::from_str(alloc, if behind { reply } else { call })
}
