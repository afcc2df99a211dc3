// What a reply lists.
use cache_law::{Ban, BanLine, Issued, VclLine, VclState};
use std::alloc::{AllocError, Global};
use units::{Sequence, Shared, Text};

/// A discarded, an available and an active VCL.
pub fn vcl_lines(alloc: Global) -> Result<Sequence<VclLine>, AllocError> {
    let mut lines = Sequence::new(alloc);
    for (state, references, name) in [
        (VclState::Discarded, 1, "boot"),
        (VclState::Available, 0, "w"),
        (VclState::Active, 20, "v"),
    ] {
        let name = Text::of(alloc, name.as_bytes())?;
        lines.push(VclLine {
            state,
            references,
            name,
        })?;
    }
    Ok(lines)
}

/// Three bans, two of which are completed.
pub fn ban_lines(alloc: Global) -> Result<Sequence<BanLine>, AllocError> {
    let mut lines = Sequence::new(alloc);
    for (moment, argument) in [(5_000, "a b"), (0, ""), (12, "c")] {
        lines.push(ban_line(alloc, moment, argument)?)?;
    }
    Ok(lines)
}

fn ban_line(alloc: Global, moment: u64, argument: &str) -> Result<BanLine, AllocError> {
    let ban = Ban {
        words: ban_words(alloc, argument)?,
        conditions: Sequence::new(alloc),
    };
    Ok(BanLine {
        issued: Issued {
            number: 1,
            moment,
            ban: Shared::new(alloc, ban)?,
        },
        completed: moment < 5_000,
    })
}

fn ban_words(alloc: Global, argument: &str) -> Result<Sequence<Text>, AllocError> {
    let mut words = Sequence::new(alloc);
    for word in ["obj.http.x", "==", argument] {
        words.push(Text::of(alloc, word.as_bytes())?)?;
    }
    Ok(words)
}
