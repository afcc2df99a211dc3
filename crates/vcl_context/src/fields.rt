// The fields of the messages of a context.
ghost use Rattle.std.specs.Prelude.{◌≡◌, length, IfOk, Some};
ghost use Rattle.http_heads.specs.Fields.{without};
ghost use Rattle.vcl_context.specs.Fields.{fields_of, field_value, field_set, field_unset, set_among};
ghost use Rattle.vcl_context.specs.Outcomes.{Sets};

use crate::carried::is_field;
use crate::context::Context;
use crate::setting::Setting;
use crate::variable::Message;
use http_heads::{FieldError, Fields, MAX_SET_FIELDS};
use std::alloc::{AllocError, Global};
use units::{Text, fold_eq};
use vcl_values::Value;

impl Context {
    /// The fields of a message.
    pub fn fields(&self, message: Message) -> &Fields
        ensures { result.now ≡ fields_of message self.now }
    {
        match message {
            Message::Request => &self.request.head.fields,
            Message::Object => &self.object.head.fields,
            Message::FetchRequest => &self.fetch_request.head.fields,
            Message::FetchResponse => &self.fetch_response.head.fields,
            Message::Response => &self.response.fields,
        }
    }

    /// What a field reads as: the value of the first one of its name.
    pub fn read_field(&self, message: Message, name: &[u8]) -> Result<Value, AllocError>
        ensures { IfOk result (λ v. v ≡ field_value message name.now self.now) }
    {
        match self.fields(message).first(name) {
            None => Ok(Value::String(None)),
            Some(text) => Ok(Value::String(Some(text.copy()?))),
        }
    }

    /// Sets a field to the text of a value.
    pub fn set_field(
        &mut self,
        alloc: Global,
        message: Message,
        name: &Text,
        value: &Value,
    ) -> Result<Setting, AllocError>
        ensures { Sets result self.old self.new (field_set message name.now value.now self.old) }
    {
        let text = value.text(alloc)?;
        match message {
            Message::Request => set_among(&mut self.request.head.fields, name, &text),
            Message::Object => set_among(&mut self.object.head.fields, name, &text),
            Message::FetchRequest => set_among(&mut self.fetch_request.head.fields, name, &text),
            Message::FetchResponse => set_among(&mut self.fetch_response.head.fields, name, &text),
            Message::Response => set_among(&mut self.response.fields, name, &text),
        }
    }

    /// Takes away all fields of a name.
    pub fn unset_field(&mut self, message: Message, name: &[u8])
        ensures { self.new ≡ field_unset message name.now self.old }
    {
        match message {
            Message::Request => self.request.head.fields.unset(name),
            Message::Object => self.object.head.fields.unset(name),
            Message::FetchRequest => self.fetch_request.head.fields.unset(name),
            Message::FetchResponse => self.fetch_response.head.fields.unset(name),
            Message::Response => self.response.fields.unset(name),
        }
    }
}

fn set_among(fields: &mut Fields, name: &Text, text: &Text) -> Result<Setting, AllocError>
    ensures { Sets result fields.old fields.new (set_among name.now text.now fields.old) }
{
    if !is_field(name.bytes(), text.bytes()) || others(fields, name.bytes()) >= MAX_SET_FIELDS {
        return Ok(Setting::Refused);
    }
    match fields.set(name, text) {
        Ok(()) => Ok(Setting::Done),
        Err(FieldError::NoMemory) => Err(AllocError),
        Err(FieldError::Bad) | Err(FieldError::Full) => Ok(Setting::Refused),
    }
}

// How many fields have another name.
fn others(fields: &Fields, name: &[u8]) -> usize
    ensures { result ≡ length (without name.now fields.now) }
{
    fields
        .as_slice()
        .iter()
        .filter(|field| !fold_eq(name, field.name.bytes()))
        .count()
}
