// A text and the built-in text as one.
ghost use Rattle.std.specs.Prelude.{◌≡◌, ◌++◌, IfOk, IfErr};
ghost use Rattle.vcl_parse.specs.Parsing.{IsFault};
ghost use Rattle.vcl_store.specs.Joined.{built_in_text, IsTreeOf, IsJoined, IsUnreadable};

use crate::built_in::BUILT_IN;
use std::alloc::{AllocError, Global};
use units::{Sequence, Text};
use vcl_parse::parse;
use vcl_tree::{Item, Tree, VclError};

/// The joined tree of a text, or the refusal and its place that `parse` gives the text. Places in what comes of the
/// built-in text are those in `BUILT_IN`.
pub fn joined_tree(alloc: Global, text: &Text) -> Result<Tree, VclError>
    ensures joined { IfOk result (λ joined. IsJoined text.now joined) }
    ensures refused { IfErr result (IsUnreadable text.now) }
{
    let own = parse(alloc, text)?;
    let built_in = built_in_tree(alloc)?;
    Ok(Tree {
        version: own.version,
        items: joined_items(own.items, built_in.items)?,
    })
}

#[tactic(auto, unfolding(crate::specs::Joined::built_in_text))]
fn built_in_tree(alloc: Global) -> Result<Tree, VclError>
    ensures tree { IfOk result (IsTreeOf built_in_text) }
    ensures fault { IfErr result (IsFault built_in_text) }
{
    parse(alloc, &Text::of(alloc, BUILT_IN)?)
}

fn joined_items(own: Sequence<Item>, built_in: Sequence<Item>) -> Result<Sequence<Item>, AllocError>
    ensures { IfOk result (λ items. items ≡ own ++ built_in) }
{
    let mut items = own.into_vec();
    items.append(&mut built_in.into_vec())?;
    Ok(Sequence::from_vec(items))
}
