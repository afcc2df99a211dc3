// The fields of a message.
ghost use Rattle.std.specs.Prelude.{◌≡◌, ◌↔◌, ◌+◌, vec_len, vec_capacity, ◌<◌, ◌≤◌, [], not, length, IsTrue, IfOk, OnOk, OnErr, IfErr, IsErrOf};
ghost use Rattle.std.specs.Option.{option_copied};
ghost use Rattle.http_heads.specs.declared.fields.FieldError.TheVariants.{NoMemory};
ghost use Rattle.http_heads.specs.Limits.{kept_limit};
ghost use Rattle.http_heads.specs.Fields.{is_named, first_value, count_of, without, field as one_field, appended, replaced, MayStand};

use crate::limits::{MAX_KEPT_FIELDS, MAX_NAME};
use http_header::is_token;
use std::alloc::{AllocError, AllocFailed, Global};
use std::error::Error;
use std::fmt::{self, Display, Formatter, Write};
use std::marker::Model;
use units::{Copied, Text, fold_eq};

/// A field of a message.
#[derive(Drop)]
pub struct Field {
    pub name: Text,
    pub value: Text,
}

/// Why a field is refused.
#[derive(Clone, Copy, Debug, PartialEq, Eq)]
pub enum FieldError {
    /// The name is no token of at most 65,535 bytes, or the value holds CR, LF or NUL.
    Bad,
    /// There would be more than 80 fields.
    Full,
    NoMemory,
}

impl From<AllocError> for FieldError {
    ghost from_gives = { λ _ e. e ≡ NoMemory };

    fn from(_: AllocError) -> FieldError {
        FieldError::NoMemory
    }
}

impl<T: Drop> From<AllocFailed<T>> for FieldError {
    ghost from_gives = { λ _ e. e ≡ NoMemory };

    fn from(_: AllocFailed<T>) -> FieldError {
        FieldError::NoMemory
    }
}

impl Display for FieldError {
    fn fmt<W: Write>(&self, f: &mut Formatter<W>) -> fmt::Result {
        f.write_str(match self {
            FieldError::Bad => "the name is no token, or the value holds CR, LF or NUL",
            FieldError::Full => "there would be more than 80 fields",
            FieldError::NoMemory => "out of memory",
        })
    }
}

impl Error for FieldError {}

/// The fields of a message in their order. Names are compared without regard to the case of ASCII letters.
#[derive(Drop)]
pub struct Fields {
    items: Vec<Field>,
}

impl Model for Fields {
    ghost use Rattle.std.specs.Prelude.{List};
    ghost use Rattle.http_heads.specs.declared.fields.Field.{Field};

    ghost Value = { List Field };

    ghost view = { λ f. f.items.items };
}

impl Fields {
    /// No fields.
    pub fn new(alloc: Global) -> Fields
        ensures { result ≡ [] }
    {
        Fields {
            items: Vec::new(alloc),
        }
    }

    /// These fields, as they are.
    pub fn from_vec(items: Vec<Field>) -> Fields
        ensures { result ≡ items.items }
    {
        Fields { items }
    }

    /// The vector of the fields, in the same memory.
    pub fn into_vec(self) -> Vec<Field>
        ensures { result.items ≡ self }
    {
        self.items
    }

    pub fn as_slice(&self) -> &[Field]
        ensures { result.now ≡ self.now }
    {
        self.items.as_slice()
    }

    pub fn len(&self) -> usize
        ensures { result ≡ length self.now }
    {
        self.items.len()
    }

    pub fn is_empty(&self) -> bool
        ensures { IsTrue result ↔ (self.now ≡ []) }
    {
        self.items.is_empty()
    }

    /// The value of the first field of the name.
    pub fn first(&self, name: &[u8]) -> Option<&Text>
        ensures { option_copied result ≡ first_value name.now self.now }
    {
        first_of(self.items.as_slice(), name)
    }

    /// How many fields have the name.
    pub fn count(&self, name: &[u8]) -> usize
        ensures { result ≡ count_of name.now self.now }
    {
        number_of(self.items.as_slice(), name)
    }

    /// Removes all fields of the name.
    pub fn unset(&mut self, name: &[u8])
        ensures { self.new ≡ without name.now self.old }
    {
        keep_others(&mut self.items, name);
    }

    /// Removes all fields of the name and puts one at the end. After an error the fields are as before.
    pub fn set(&mut self, name: &Text, value: &Text) -> Result<(), FieldError>
        ensures ok { OnOk result (self.new ≡ replaced name.now value.now self.old) }
        ensures bad { IsErrOf result FieldError.Bad ↔ ¬ (MayStand name.now value.now) }
        ensures full { IsErrOf result FieldError.Full ↔ (MayStand name.now value.now × (kept_limit < length (replaced name.now value.now self.old))) }
        ensures err { OnErr result (self.new ≡ self.old) }
    {
        if !may_stand(name.bytes(), value.bytes()) {
            return Err(FieldError::Bad);
        }
        if others_of(self.items.as_slice(), name.bytes()) >= MAX_KEPT_FIELDS {
            return Err(FieldError::Full);
        }
        put_last(&mut self.items, name, value)
    }

    /// Puts one more field at the end. After an error the fields are as before.
    pub fn append(&mut self, name: &Text, value: &Text) -> Result<(), FieldError>
        ensures ok { OnOk result (self.new ≡ appended name.now value.now self.old) }
        ensures bad { IsErrOf result FieldError.Bad ↔ ¬ (MayStand name.now value.now) }
        ensures full { IsErrOf result FieldError.Full ↔ (MayStand name.now value.now × (kept_limit < length (appended name.now value.now self.old))) }
        ensures err { OnErr result (self.new ≡ self.old) }
    {
        if !may_stand(name.bytes(), value.bytes()) {
            return Err(FieldError::Bad);
        }
        if self.items.len() >= MAX_KEPT_FIELDS {
            return Err(FieldError::Full);
        }
        put_behind(&mut self.items, name, value)
    }
}

impl Copied for Field {
    fn copied(&self, alloc: Global) -> Result<Self, AllocError> {
        Ok(Field {
            name: self.name.copied(alloc)?,
            value: self.value.copied(alloc)?,
        })
    }
}

impl Copied for Fields {
    fn copied(&self, alloc: Global) -> Result<Self, AllocError> {
        let items = copies(alloc, self.items.as_slice())?;
        Ok(Fields { items })
    }
}

fn copies(alloc: Global, fields: &[Field]) -> Result<Vec<Field>, AllocError>
    ensures { IfOk result (λ copy. copy.items ≡ fields.now) }
{
    let mut copy = Vec::with_capacity(alloc, fields.len())?;
    for field in fields {
        copy.push(field.copied(alloc)?)?;
    }
    Ok(copy)
}

fn has_name(name: &[u8], field: &Field) -> bool
    ensures { result ≡ is_named name.now field.now }
{
    fold_eq(name, field.name.bytes())
}

fn first_of<'f>(fields: &'f [Field], name: &[u8]) -> Option<&'f Text>
    ensures { option_copied result ≡ first_value name.now fields.now }
{
    let found = fields.iter().find(|field| has_name(name, field))?;
    Some(&found.value)
}

fn number_of(fields: &[Field], name: &[u8]) -> usize
    ensures { result ≡ count_of name.now fields.now }
{
    fields.iter().filter(|field| has_name(name, field)).count()
}

fn others_of(fields: &[Field], name: &[u8]) -> usize
    ensures { result ≡ length (without name.now fields.now) }
{
    fields.iter().filter(|field| !has_name(name, field)).count()
}

fn keep_others(fields: &mut Vec<Field>, name: &[u8])
    ensures others { fields.new.items ≡ without name.now fields.old.items }
    ensures fewer { vec_len fields.new ≤ vec_len fields.old }
    ensures capacity { vec_capacity fields.new ≡ vec_capacity fields.old }
{
    fields.retain(|field| !has_name(name, field));
}

// Whether the name is a token of at most 65,535 bytes, and the value without CR, LF and NUL.
fn may_stand(name: &[u8], value: &[u8]) -> bool
    ensures { IsTrue result ↔ MayStand name.now value.now }
{
    name.len() <= MAX_NAME
        && is_token(name)
        && value
            .iter()
            .all(|byte| !(*byte == 0 || *byte == b'\n' || *byte == b'\r'))
}

fn put_behind(fields: &mut Vec<Field>, name: &Text, value: &Text) -> Result<(), FieldError>
    ensures ok { OnOk result (fields.new.items ≡ appended name.now value.now fields.old.items) }
    ensures err { OnErr result (fields.new.items ≡ fields.old.items) }
    ensures cause { IfErr result (λ e. e ≡ FieldError.NoMemory) }
{
    let field = copy_of(name, value)?;
    fields.push(field)?;
    Ok(())
}

fn copy_of(name: &Text, value: &Text) -> Result<Field, AllocError>
    ensures { IfOk result (λ f. f ≡ one_field name.now value.now) }
{
    Ok(Field {
        name: name.copy()?,
        value: value.copy()?,
    })
}

// The memory is taken before a field is removed.
fn put_last(fields: &mut Vec<Field>, name: &Text, value: &Text) -> Result<(), FieldError>
    ensures ok { OnOk result (fields.new.items ≡ replaced name.now value.now fields.old.items) }
    ensures err { OnErr result (fields.new.items ≡ fields.old.items) }
    ensures cause { IfErr result (λ e. e ≡ FieldError.NoMemory) }
{
    let field = copy_of(name, value)?;
    fields.reserve(1)?;
    keep_others(fields, name.bytes());
    fields.push(field).unwrap();
    Ok(())
}
