// Attributes of backends and probes.
use crate::name::Name;
use std::marker::Model;
use units::Text;

/// An attribute, from the place of its point on.
#[cycle(attribute)]
#[derive(Drop)]
pub struct Attribute {
    pub place: u32,
    pub name: Name,
    pub value: AttributeValue,
}

/// What an attribute is set to, and the place of its first token.
#[cycle(attribute)]
#[derive(Drop)]
pub enum AttributeValue {
    String(u32, Text),
    Integer(u32, i64),
    /// A duration in milliseconds.
    Duration(u32, i64),
    Name(Name),
    /// Attributes in braces.
    Attributes(u32, Vec<Attribute>),
}

impl Model for Attribute {
    ghost use Rattle.vcl_tree.specs.Phrase.{Phrase, phrase_size};

    ghost Value = { Phrase };

    ghost use Rattle.vcl_tree.specs.PhraseCode.{phrase_code};

    ghost coded = { phrase_code };

    ghost use Rattle.vcl_tree.specs.AttributeView.{attribute_of};

    ghost view = { λ a. attribute_of a.place a.name a.value };

    ghost size = { phrase_size };

    ghost use Rattle.vcl_tree.specs.AttributeFalls.{falls};

    ghost size_decreases = { λ a h. falls a.place a.name a.value };
}
