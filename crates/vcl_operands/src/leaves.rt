// Values of nodes without parts.
ghost use Rattle.std.specs.Prelude.{◌≡◌, IfOk, IsSome, Some, option_map};
ghost use Rattle.vcl_operands.specs.Nodes.{leaf};
ghost use Rattle.vcl_operands.specs.Values.{default_backend as default_in, backend_at, director_at, director_value, literal, named_field};

use std::alloc::{AllocError, Global};
use units::Text;
use vcl_code::Node;
use vcl_context::{Context, Message};
use vcl_program::{Code, Compiled, Director};
use vcl_values::{Backend, MAX_TEXT, Value};

/// What a node without parts is worth, or none where a limit is passed.
pub(crate) fn leaf(
    alloc: Global,
    program: &Compiled,
    context: &Context,
    node: Node,
) -> Result<Option<Value>, AllocError>
    requires { IsSome (leaf program.now.code context.now node) }
    ensures { IfOk result (λ value. leaf program.now.code context.now node ≡ Some value) }
{
    match node {
        Node::Text(number) => literal(program.code.arena.texts.as_slice(), number),
        Node::Int(number) => Ok(Some(Value::Int(number))),
        Node::Duration(time) => Ok(Some(Value::Duration(time))),
        Node::Truth(truth) => Ok(Some(Value::Bool(truth))),
        Node::Backend(number) => { Ok(Some(backend_at(program.code.backends.as_slice(), number)?)) }
        Node::Read(variable) => {
            Ok(Some(context.read(alloc, default_backend(&program.code), variable)?))
        }
        Node::ReadField(message, number) => {
            let texts = program.code.arena.texts.as_slice();
            Ok(Some(field(context, texts, message, number)?))
        }
        Node::Director(number) => {
            Ok(Some(director_at(program.code.directors.as_slice(), number)?))
        }
        _ => unreachable!(),
    }
}

// A string of the text, or none where it has over 65,536 bytes.
fn literal(texts: &[Text], number: usize) -> Result<Option<Value>, AllocError>
    requires { IsSome (literal texts.now number) }
    ensures { IfOk result (λ value. literal texts.now number ≡ Some value) }
{
    let Some(text) = texts.get(number) else {
        unreachable!();
    };
    if text.bytes().len() <= MAX_TEXT {
        Ok(Some(Value::String(Some(text.copy()?))))
    } else {
        Ok(None)
    }
}

fn field(
    context: &Context,
    texts: &[Text],
    message: Message,
    number: usize,
) -> Result<Value, AllocError>
    requires { IsSome (named_field context.now texts.now message number) }
    ensures { IfOk result (λ value. named_field context.now texts.now message number ≡ Some (Some value)) }
{
    let Some(name) = texts.get(number) else {
        unreachable!();
    };
    context.read_field(message, name.bytes())
}

// The backend that a request is sent to where none is chosen.
fn default_backend(code: &Code) -> Option<&Backend>
    ensures { option_map (λ b. b.now) result ≡ default_in code.now }
{
    code.backends.as_slice().get(code.default_backend)
}

fn backend_at(backends: &[Backend], number: usize) -> Result<Value, AllocError>
    requires { IsSome (backend_at backends.now number) }
    ensures { IfOk result (λ value. backend_at backends.now number ≡ Some (Some value)) }
{
    let Some(backend) = backends.get(number) else {
        unreachable!();
    };
    Ok(Value::Backend(Some(backend.copy()?)))
}

fn director_at(directors: &[Director], number: usize) -> Result<Value, AllocError>
    requires { IsSome (director_at directors.now number) }
    ensures { IfOk result (λ value. director_at directors.now number ≡ Some (Some value)) }
{
    let Some(director) = directors.get(number) else {
        unreachable!();
    };
    director_value(director, None)
}

/// A director as a value, with the text that it is asked with.
pub(crate) fn director_value(director: &Director, key: Option<Text>) -> Result<Value, AllocError>
    ensures { IfOk result (λ value. value ≡ director_value key director.now) }
{
    let name = director.name.copy()?;
    Ok(Value::Backend(Some(Backend {
        name,
        key,
        declared_none: false,
    })))
}
