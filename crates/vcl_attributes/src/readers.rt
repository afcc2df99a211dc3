// The first attribute of a name and a type.
ghost use Rattle.std.specs.Prelude.{◌≡◌, option_map};
ghost use Rattle.vcl_tree.specs.AttributeView.{value_of};
ghost use Rattle.vcl_attributes.specs.Readers.{duration_of, first_duration, first_integer, first_string, integer_of, read_named, string_of};

use units::Text;
use vcl_tree::{Attribute, AttributeValue};

fn string_of(value: &AttributeValue) -> Option<&Text>
    ensures { option_map (λ text. text.now) result ≡ string_of (value_of value.now) }
{
    match value {
        AttributeValue::String(_, text) => Some(text),
        AttributeValue::Integer(_, _) => None,
        AttributeValue::Duration(_, _) => None,
        AttributeValue::Name(_) => None,
        AttributeValue::Attributes(_, _) => None,
    }
}

fn integer_of(value: &AttributeValue) -> Option<i64>
    ensures { result ≡ integer_of (value_of value.now) }
{
    match value {
        AttributeValue::Integer(_, number) => Some(*number),
        AttributeValue::String(_, _) => None,
        AttributeValue::Duration(_, _) => None,
        AttributeValue::Name(_) => None,
        AttributeValue::Attributes(_, _) => None,
    }
}

fn duration_of(value: &AttributeValue) -> Option<i64>
    ensures { result ≡ duration_of (value_of value.now) }
{
    match value {
        AttributeValue::Duration(_, milliseconds) => Some(*milliseconds),
        AttributeValue::String(_, _) => None,
        AttributeValue::Integer(_, _) => None,
        AttributeValue::Name(_) => None,
        AttributeValue::Attributes(_, _) => None,
    }
}

// The string that the attribute is, if it has this name.
fn string_named<'t>(wanted: &[u8], attribute: &'t Attribute) -> Option<&'t Text>
    ensures { option_map (λ text. text.now) result ≡ read_named string_of wanted.now attribute.entry.now }
{
    if attribute.name.text.bytes() == wanted {
        string_of(&attribute.value)
    } else {
        None
    }
}

// The whole number that it is.
fn integer_named(wanted: &[u8], attribute: &Attribute) -> Option<i64>
    ensures { result ≡ read_named integer_of wanted.now attribute.now }
{
    if attribute.name.text.bytes() == wanted {
        integer_of(&attribute.value)
    } else {
        None
    }
}

// The duration that it is.
fn duration_named(wanted: &[u8], attribute: &Attribute) -> Option<i64>
    ensures { result ≡ read_named duration_of wanted.now attribute.now }
{
    if attribute.name.text.bytes() == wanted {
        duration_of(&attribute.value)
    } else {
        None
    }
}

/// The string of the first attribute of this name that is one.
pub fn first_string<'t>(wanted: &[u8], attributes: &'t [Attribute]) -> Option<&'t Text>
    ensures { option_map (λ text. text.now) result ≡ first_string wanted.now attributes.entry.now }
{
    for attribute in attributes {
        if let Some(text) = string_named(wanted, attribute) {
            return Some(text);
        }
    }
    None
}

/// The whole number of the first attribute of this name that is one.
pub fn first_integer(wanted: &[u8], attributes: &[Attribute]) -> Option<i64>
    ensures { result ≡ first_integer wanted.now attributes.now }
{
    for attribute in attributes {
        if let Some(number) = integer_named(wanted, attribute) {
            return Some(number);
        }
    }
    None
}

/// The duration of the first attribute of this name that is one, in milliseconds.
pub fn first_duration(wanted: &[u8], attributes: &[Attribute]) -> Option<i64>
    ensures { result ≡ first_duration wanted.now attributes.now }
{
    for attribute in attributes {
        if let Some(milliseconds) = duration_named(wanted, attribute) {
            return Some(milliseconds);
        }
    }
    None
}
