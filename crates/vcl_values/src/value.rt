// The values of VCL, as texts and in conditions.
ghost use Rattle.std.specs.Prelude.{◌≡◌, IfOk};
ghost use Rattle.std.specs.Fmt.{signed_decimal};
ghost use Rattle.vcl_values.specs.Values.{kind_of, text_of, truth_of, duration_text, sign_text, address_text};

use std::alloc::{AllocError, Global};
use units::Text;

/// The types of VCL.
#[derive(Clone, Copy, Debug, PartialEq, Eq)]
pub enum Kind {
    String,
    Int,
    Duration,
    Bool,
    Ip,
    Backend,
}

/// A backend or a director by its name, and the text that a hash director was asked with.
#[derive(Drop)]
pub struct Backend {
    pub name: Text,
    pub key: Option<Text>,
    /// Whether it was declared as `none`: it keeps its name and is none in a condition.
    pub declared_none: bool,
}

impl Backend {
    /// The same backend again; its texts are shared.
    pub fn copy(&self) -> Result<Backend, AllocError>
        ensures { IfOk result (λ copy. copy ≡ self.now) }
    {
        let name = self.name.copy()?;
        let declared_none = self.declared_none;
        match &self.key {
            None => Ok(Backend {
                name,
                key: None,
                declared_none,
            }),
            Some(key) => Ok(Backend {
                name,
                key: Some(key.copy()?),
                declared_none,
            }),
        }
    }
}

/// A value of VCL: a text or an absent one, a whole number, a time in milliseconds, a truth, an address, or a
/// backend or none.
#[derive(Drop)]
pub enum Value {
    String(Option<Text>),
    Int(i64),
    Duration(i64),
    Bool(bool),
    Ip([u8; 4]),
    Backend(Option<Backend>),
}

impl Value {
    /// Its type.
    pub fn kind(&self) -> Kind
        ensures { result ≡ kind_of self.now }
    {
        match self {
            Value::String(_) => Kind::String,
            Value::Int(_) => Kind::Int,
            Value::Duration(_) => Kind::Duration,
            Value::Bool(_) => Kind::Bool,
            Value::Ip(_) => Kind::Ip,
            Value::Backend(_) => Kind::Backend,
        }
    }

    /// The same value again; its texts are shared.
    pub fn copy(&self) -> Result<Value, AllocError>
        ensures { IfOk result (λ copy. copy ≡ self.now) }
    {
        match self {
            Value::String(None) => Ok(Value::String(None)),
            Value::String(Some(text)) => Ok(Value::String(Some(text.copy()?))),
            Value::Int(number) => Ok(Value::Int(*number)),
            Value::Duration(milliseconds) => Ok(Value::Duration(*milliseconds)),
            Value::Bool(truth) => Ok(Value::Bool(*truth)),
            Value::Ip(address) => Ok(Value::Ip(*address)),
            Value::Backend(None) => Ok(Value::Backend(None)),
            Value::Backend(Some(backend)) => Ok(Value::Backend(Some(backend.copy()?))),
        }
    }

    /// What it says in a condition, None for an address.
    pub fn truth(&self) -> Option<bool>
        ensures { result ≡ truth_of self.now }
    {
        match self {
            Value::String(text) => Some(text.is_some()),
            Value::Int(number) => Some(*number != 0),
            Value::Duration(milliseconds) => Some(*milliseconds > 0),
            Value::Bool(truth) => Some(*truth),
            Value::Ip(_) => None,
            Value::Backend(None) => Some(false),
            Value::Backend(Some(backend)) => Some(!backend.declared_none),
        }
    }

    /// It as a text.
    pub fn text(&self, alloc: Global) -> Result<Text, AllocError>
        ensures { IfOk result (λ t. t ≡ text_of self.now) }
    {
        match self {
            Value::String(None) | Value::Backend(None) => Text::of(alloc, b""),
            Value::String(Some(text)) => text.copy(),
            Value::Int(number) => int_as_text(alloc, *number),
            Value::Duration(milliseconds) => duration_as_text(alloc, *milliseconds),
            Value::Bool(true) => Text::of(alloc, b"true"),
            Value::Bool(false) => Text::of(alloc, b"false"),
            Value::Ip(address) => address_as_text(alloc, *address),
            Value::Backend(Some(backend)) => backend.name.copy(),
        }
    }
}

fn int_as_text(alloc: Global, number: i64) -> Result<Text, AllocError>
    ensures { IfOk result (λ t. t ≡ signed_decimal number) }
{
    let text = format!(in alloc; "{number}")?;
    Text::from_vec(text.into_bytes())
}

// A time in milliseconds as seconds with three decimals.
fn duration_as_text(alloc: Global, milliseconds: i64) -> Result<Text, AllocError>
    ensures { IfOk result (λ t. t ≡ duration_text milliseconds) }
{
    let sign = sign_of(milliseconds);
    let time = milliseconds.unsigned_abs();
    let seconds = time / 1000;
    let tenths = time / 100 % 10;
    let hundredths = time / 10 % 10;
    let thousandths = time % 10;
    let text = format!(in alloc; "{sign}{seconds}.{tenths}{hundredths}{thousandths}")?;
    Text::from_vec(text.into_bytes())
}

// A minus before what is below 0.
fn sign_of(number: i64) -> &'static str
    ensures { result.now ≡ sign_text number }
{
    if number < 0 { "-" } else { "" }
}

// The four numbers of an address with dots between them.
fn address_as_text(alloc: Global, address: [u8; 4]) -> Result<Text, AllocError>
    ensures { IfOk result (λ t. t ≡ address_text address) }
{
    let first = address[0];
    let second = address[1];
    let third = address[2];
    let fourth = address[3];
    let text = format!(in alloc; "{first}.{second}.{third}.{fourth}")?;
    Text::from_vec(text.into_bytes())
}
