// The words of a call.
ghost use Rattle.std.specs.Prelude.{◌≡◌, ◌++◌, ◌∷◌, [], true, OnOk};
ghost use Rattle.cache_law.specs.declared.call.Call.TheVariants as calls;
ghost use Rattle.journal_text.specs.declared.word.Word.TheVariants.{Key, Quoted};
ghost use Rattle.journal_text.specs.Words.{is_key};
ghost use Rattle.journal_text.specs.Grammar.{texts_words, options_words, query_words, health_key, source_words, call_words};

use crate::parts::{put_fields, put_object, put_target, put_texts};
use crate::words::Words;
use cache_law::{Call, Health, Object, Options, Query, VclSource};
use directors::Target;
use std::alloc::{AllocError, Global};
use units::Text;

fn put_options(words: &mut Words, alloc: Global, options: &Options) -> Result<(), AllocError>
    ensures { OnOk result (words.new ≡ words.old ++ options_words options.now) }
{
    words.truth(options.always_miss)?;
    words.truth(options.ignore_busy)?;
    words.truth(options.ignore_vary)?;
    words.time_or_absent(alloc, options.ttl)?;
    words.time_or_absent(alloc, options.grace)
}

fn put_query(words: &mut Words, alloc: Global, query: &Query) -> Result<(), AllocError>
    ensures { OnOk result (words.new ≡ words.old ++ query_words query.now) }
{
    put_texts(words, query.key.as_slice())?;
    words.quoted(&query.request.url)?;
    put_fields(words, query.request.fields.as_slice())?;
    put_options(words, alloc, &query.options)
}

fn put_health(words: &mut Words, alloc: Global, health: Health) -> Result<(), AllocError>
    ensures { OnOk result (words.new ≡ words.old ++ Key (health_key health) ∷ []) }
{
    match health {
        Health::Auto => words.key(alloc, b"auto"),
        Health::Healthy => words.key(alloc, b"healthy"),
        Health::Sick => words.key(alloc, b"sick"),
    }
}

fn put_source(words: &mut Words, source: &VclSource) -> Result<(), AllocError>
    ensures { OnOk result (words.new ≡ words.old ++ source_words source.now) }
{
    words.quoted(&source.name)?;
    words.quoted(&source.text)?;
    put_texts(words, source.backends.as_slice())
}

fn put_lookup(words: &mut Words, alloc: Global, query: &Query) -> Result<(), AllocError>
    ensures { OnOk result (words.new ≡ words.old ++ call_words (calls.Lookup query.now)) }
{
    words.key(alloc, b"lookup")?;
    put_query(words, alloc, query)
}

fn put_pick(
    words: &mut Words,
    alloc: Global,
    vcl: u32,
    target: &Target,
    word: u64,
) -> Result<(), AllocError>
    ensures { OnOk result (words.new ≡ words.old ++ call_words (calls.Pick vcl target.now word)) }
{
    words.key(alloc, b"pick")?;
    words.middle(vcl)?;
    put_target(words, alloc, target)?;
    words.long(word)
}

fn put_insert(
    words: &mut Words,
    alloc: Global,
    token: u64,
    object: &Object,
    stale: Option<u64>,
) -> Result<(), AllocError>
    ensures { OnOk result (words.new ≡ words.old ++ call_words (calls.Insert token object.now stale)) }
{
    words.key(alloc, b"insert")?;
    words.long(token)?;
    put_object(words, alloc, object)?;
    words.number_or_absent(alloc, stale)
}

// A key, and texts behind it.
fn put_list(words: &mut Words, alloc: Global, key: &[u8], texts: &[Text]) -> Result<(), AllocError>
    requires { is_key key.now ≡ true }
    ensures { OnOk result (words.new ≡ words.old ++ Key key.now ∷ texts_words texts.now) }
{
    words.key(alloc, key)?;
    put_texts(words, texts)
}

// A key, and a text behind it.
fn put_text(words: &mut Words, alloc: Global, key: &[u8], text: &Text) -> Result<(), AllocError>
    requires { is_key key.now ≡ true }
    ensures { OnOk result (words.new ≡ words.old ++ Key key.now ∷ Quoted text.now ∷ []) }
{
    words.key(alloc, key)?;
    words.quoted(text)
}

fn put_xkey(words: &mut Words, alloc: Global, keys: &[Text], soft: bool) -> Result<(), AllocError>
    ensures { OnOk result (words.new ≡ words.old ++ call_words (calls.Xkey keys.now soft)) }
{
    put_list(words, alloc, b"xkey", keys)?;
    words.truth(soft)
}

fn put_set_health(
    words: &mut Words,
    alloc: Global,
    backend: &Text,
    health: Health,
) -> Result<(), AllocError>
    ensures { OnOk result (words.new ≡ words.old ++ call_words (calls.SetHealth backend.now health)) }
{
    put_text(words, alloc, b"health", backend)?;
    put_health(words, alloc, health)
}

fn put_load(words: &mut Words, alloc: Global, source: &VclSource) -> Result<(), AllocError>
    ensures { OnOk result (words.new ≡ words.old ++ call_words (calls.Load source.now)) }
{
    words.key(alloc, b"load")?;
    put_source(words, source)
}

fn put_drop(words: &mut Words, alloc: Global, token: u64) -> Result<(), AllocError>
    ensures { OnOk result (words.new ≡ words.old ++ call_words (calls.Drop token)) }
{
    words.key(alloc, b"drop")?;
    words.long(token)
}

/// The words of a call, of a ban those that it was given by.
pub(crate) fn put_call(words: &mut Words, alloc: Global, call: &Call) -> Result<(), AllocError>
    ensures { OnOk result (words.new ≡ words.old ++ call_words call.now) }
{
    match call {
        Call::Begin => words.key(alloc, b"begin"),
        Call::Draw => words.key(alloc, b"draw"),
        Call::Lookup(query) => put_lookup(words, alloc, query),
        Call::Pick { vcl, target, word } => put_pick(words, alloc, *vcl, target, *word),
        Call::Insert {
            token,
            object,
            stale,
        } => put_insert(words, alloc, *token, object, *stale),
        Call::Ban(ban) => put_list(words, alloc, b"ban", ban.words.as_slice()),
        Call::BanList => words.key(alloc, b"banlist"),
        Call::Purge { key } => put_list(words, alloc, b"purge", key.as_slice()),
        Call::Xkey { keys, soft } => put_xkey(words, alloc, keys.as_slice(), *soft),
        Call::SetHealth { backend, health } => put_set_health(words, alloc, backend, *health),
        Call::Load(source) => put_load(words, alloc, source),
        Call::Switch { name } => put_text(words, alloc, b"switch", name),
        Call::Discard { name } => put_text(words, alloc, b"discard", name),
        Call::VclList => words.key(alloc, b"vcls"),
        Call::Drop { token } => put_drop(words, alloc, *token),
        Call::End => words.key(alloc, b"end"),
    }
}
