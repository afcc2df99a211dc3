// Connections in memory, with a responder that tells what it was asked.
ghost use Rattle.connection.specs.Serving.{Round};

use crate::bytes::{bytes_of, first_word, shown};
use crate::links::{direction, link};
use connection::{Answered, Responder, serve};
use http_heads::RequestHead;
use message_reader::Intake;
use std::alloc::{AllocError, Global};
use units::{Text, fold_eq};
use wire::{FailingLink, write_link};

/// Answers a request by its method, its URL, its body and a line end. Closes behind HTTP/1.0 and behind `Connection: close`.
#[derive(Drop)]
struct Echo;

fn write_echo(alloc: Global, head: &RequestHead, body: &Text) -> Result<Vec<u8>, AllocError> {
    let mut text = head.method.bytes().to_vec(alloc)?;
    text.extend_from_slice(head.url.bytes())?;
    text.extend_from_slice(body.bytes())?;
    text.push(b'\n')?;
    Ok(text)
}

fn closes(head: &RequestHead) -> bool {
    let is_close = match head.fields.first(b"connection") {
        Some(value) => fold_eq(value.bytes(), b"close"),
        None => false,
    };
    head.version == 10 || is_close
}

impl Responder<FailingLink> for Echo {
    ghost does = { λ _ _ _. Unit {0} };

    ghost ready = { λ _. Unit {0} };

    fn respond(
        &mut self,
        alloc: Global,
        link: &mut FailingLink,
        head: RequestHead,
        body: Text,
    ) -> Answered {
        let text = match write_echo(alloc, &head, &body) {
            Ok(text) => text,
            Err(_) => return Answered::NoMemory,
        };
        let answered = if closes(&head) {
            Answered::Closes
        } else {
            Answered::Kept
        };
        match write_link(link, text.as_slice()) {
            Ok(()) => answered,
            Err(_) => Answered::WriteFault,
        }
    }
}

/// How a connection ends on which these bytes come, at most so many in one read, and on which the reads and the writes with these
/// numbers fail; and what it took.
pub fn serve_shown(alloc: Global, most: usize, row: &str) -> Result<String, AllocError> {
    let (reads, row) = first_word(row);
    let (writes, bytes) = first_word(row);
    let reads = direction(alloc, reads, most)?;
    let (writes, bytes) = (direction(alloc, writes, 20)?, bytes_of(alloc, bytes)?);
    let mut link = link(alloc, bytes, reads, writes).quiet_for(3);
    let mut held = Intake::new(alloc);
    let mut room = [0u8; 64];
    let ended = serve(alloc, &mut link, &mut held, &mut room, &mut Echo);
    let took = shown(alloc, link.took())?;
    format!(in alloc; "{ended:?} {took}")
}
