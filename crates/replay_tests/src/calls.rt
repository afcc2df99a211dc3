// Calls as texts.
use cache_law::{Call, Health, VclSource};
use std::alloc::{AllocError, Global};
use units::Text;

/// A call's name and its texts, with bars between.
pub fn call_shown(alloc: Global, call: &Call) -> Result<String, AllocError> {
    match call {
        Call::Ban(ban) => texts_shown(alloc, "ban", ban.words.as_slice()),
        Call::BanList => format!(in alloc; "bans"),
        Call::VclList => format!(in alloc; "vcls"),
        Call::SetHealth { backend, health } => text_shown(alloc, health_name(*health), backend),
        Call::Switch { name } => text_shown(alloc, "use", name),
        Call::Discard { name } => text_shown(alloc, "discard", name),
        Call::Load(source) => source_shown(alloc, source),
        _ => format!(in alloc; "another call"),
    }
}

fn health_name(health: Health) -> &'static str {
    match health {
        Health::Auto => "auto",
        Health::Healthy => "healthy",
        Health::Sick => "sick",
    }
}

fn str_of(text: &Text) -> &str {
    str::from_utf8(text.bytes()).unwrap_or("no text")
}

fn text_shown(alloc: Global, name: &str, text: &Text) -> Result<String, AllocError> {
    format!(in alloc; "{name}|{}", str_of(text))
}

fn texts_shown(alloc: Global, name: &str, texts: &[Text]) -> Result<String, AllocError> {
    let mut out = format!(in alloc; "{name}")?;
    for text in texts {
        write!(out, "|{}", str_of(text))?;
    }
    Ok(out)
}

fn source_shown(alloc: Global, source: &VclSource) -> Result<String, AllocError> {
    let backends = texts_shown(alloc, "", source.backends.as_slice())?;
    let name = str_of(&source.name);
    let text = str_of(&source.text);
    format!(in alloc; "load|{name}|{text}{backends}")
}
