// What a line says of calls.
use crate::made::{side, text, texts};
use cache_law::{Ban, Call, Health, Marker, Object, Reply, VaryItem, VclSource};
use std::alloc::{AllocError, Global};
use units::{Sequence, Shared};

pub fn said(alloc: Global, name: &str) -> Result<String, AllocError> {
    match name {
        "marker" => marker(alloc),
        "ban" => ban(alloc),
        "xkey" => say(
            alloc,
            Call::Xkey {
                keys: texts(alloc, &["one", "two"])?,
                soft: true,
            },
        ),
        "health" => say(
            alloc,
            Call::SetHealth {
                backend: text(alloc, "b")?,
                health: Health::Sick,
            },
        ),
        "load" => load(alloc),
        "drop" => say(alloc, Call::Drop { token: 0 }),
        _ => String::from_str(alloc, "no such call"),
    }
}

fn say(alloc: Global, call: Call) -> Result<String, AllocError> {
    side(alloc, call, Reply::NotOpen, false)
}

fn marker(alloc: Global) -> Result<String, AllocError> {
    let mut vary = Vec::new(alloc);
    vary.push(VaryItem {
        name: text(alloc, "Accept")?,
        values: texts(alloc, &["x", "y"])?,
    })?;
    let marker = Marker {
        key: texts(alloc, &["/"])?,
        vary: Sequence::from_vec(vary),
        status: 404,
        origin: -5,
        ttl: 60_000,
    };
    let insert = Call::Insert {
        token: 3,
        object: Shared::new(alloc, Object::HitForMiss(marker))?,
        stale: Some(1),
    };
    say(alloc, insert)
}

fn ban(alloc: Global) -> Result<String, AllocError> {
    let ban = Ban {
        words: texts(alloc, &["obj.http.x", "~", "a\tb \\"])?,
        conditions: Sequence::new(alloc),
    };
    say(alloc, Call::Ban(Shared::new(alloc, ban)?))
}

fn load(alloc: Global) -> Result<String, AllocError> {
    let source = VclSource {
        name: text(alloc, "n")?,
        text: text(alloc, "vcl 4.1;\n")?,
        backends: texts(alloc, &[])?,
    };
    say(alloc, Call::Load(Shared::new(alloc, source)?))
}
