// A response as its bytes.
ghost use Rattle.std.specs.Prelude.{◌≡◌, ◌++◌, ℕ, List, length, IfOk, codes};
ghost use Rattle.http_heads.specs.Heads.{HasResponse};
ghost use Rattle.http_heads.specs.Printed.{IsResponseMessage, response_text};
ghost use Rattle.http_heads.specs.Lists.{is_listed as lists_it};
ghost use Rattle.delivery.specs.Sent.{delivery_text};

use crate::Delivery;
use http_heads::{is_listed, print_response};
use std::alloc::{AllocError, Global};
use units::Text;

/// The bytes of a response: its head and its body. Where the head is one, they begin with it, whatever follows them.
pub fn print_delivery(alloc: Global, delivery: &Delivery) -> Result<Text, AllocError>
    ensures text { IfOk result (λ text. text ≡ delivery_text delivery.now) }
    ensures reads { IsResponseMessage delivery.now.head → IfOk result (λ text. (more : List ℕ) → HasResponse (text ++ more) delivery.now.head (length (response_text delivery.now.head))) }
{
    let head = print_response(alloc, &delivery.head)?;
    let mut out = Vec::new(alloc);
    out.extend_from_slice(head.bytes())?;
    out.extend_from_slice(delivery.body.bytes())?;
    Text::from_vec(out)
}

/// Whether the response says that the connection is closed behind it.
pub fn closes(delivery: &Delivery) -> bool
    ensures { result ≡ lists_it (codes "connection") (codes "close") delivery.now.head.fields }
{
    is_listed(&delivery.head.fields, b"connection", b"close")
}
