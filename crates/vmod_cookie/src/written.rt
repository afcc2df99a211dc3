// A jar as one text, and back.
ghost use Rattle.std.specs.Prelude.{◌≡◌, ◌<◌, ◌≤◌, List, ℕ, [], drop, length, Some, None, IfOk, MatchOption};
ghost use Rattle.std.specs.Str.{bytes_eq};
ghost use Rattle.indexmap.specs.IndexMap.{insert_all};
ghost use Rattle.vmod_host.specs.JarText.{cookies_in, jar_of, quoted_in, written};

use crate::Jar;
use std::alloc::{AllocError, Global};
use units::{Text, quote, quoted};

impl Jar {
    /// The jar as one text, from which `read` makes it again.
    pub fn text(&self, alloc: Global) -> Result<Text, AllocError>
        ensures { IfOk result (λ text. text ≡ written self.now) }
    {
        let mut text = Vec::new(alloc);
        for (name, value) in &self.cookies {
            text.extend_from_slice(quote(alloc, name.bytes())?.bytes())?;
            text.extend_from_slice(quote(alloc, value.bytes())?.bytes())?;
        }
        Text::from_vec(text)
    }

    /// The jar that a text stands for; one that no jar is written as stands for the empty one.
    pub fn read(alloc: Global, text: &[u8]) -> Result<Jar, AllocError>
        ensures { IfOk result (λ jar. jar ≡ jar_of text.now) }
    {
        let jar = jar_in(alloc, text)?;
        let again = jar.text(alloc)?;
        if again.bytes() == text {
            Ok(jar)
        } else {
            Ok(Jar::new(alloc))
        }
    }
}

// The jar of the cookies that a text begins with.
fn jar_in(alloc: Global, text: &[u8]) -> Result<Jar, AllocError>
    ensures { IfOk result (λ jar. jar ≡ insert_all bytes_eq [] (cookies_in (length text.now) text.now)) }
{
    let mut jar = Jar::new(alloc);
    let mut from = 0;
    while let Some((name, middle)) = quoted_at(alloc, text, from)? {
        let Some((value, behind)) = quoted_at(alloc, text, middle)? else {
            break;
        };
        jar.put(name, value)?;
        from = behind;
    }
    Ok(jar)
}

// The quoted text that stands at a place of the text, and the place behind it.
fn quoted_at(alloc: Global, text: &[u8], from: usize) -> Result<Option<(Text, usize)>, AllocError>
    requires { from ≤ length text.now }
    ensures { IfOk result (λ found. MatchOption found
        (quoted_in (drop from text.now) ≡ None)
        (λ x. (quoted_in (drop from text.now) ≡ Some (x.0, drop x.1 text.now)) × (from < x.1) × (x.1 ≤ length text.now))) }
{
    quoted(alloc, text, from)
}
