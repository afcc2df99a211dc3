// What the log is to say of the exchange that is under way.

use access_log::Exchange;
use http_heads::{read_request, read_response};
use std::alloc::{AllocError, Global};
use std::net::Ipv4Addr;
use units::Text;

/// What is noted of the exchange that is under way, if one is.
#[derive(Drop)]
pub(crate) struct Noting {
    exchange: Option<Exchange>,
    /// When the first of the request's bytes came, by the loop's clock.
    since: u64,
    /// Whether something was sent.
    has_begun: bool,
    /// How many bytes of the response's head weren't sent yet.
    head_left: usize,
}

// An exchange of which a whole request came, or what is none.
fn begun(alloc: Global, address: [u8; 4], request: &[u8]) -> Result<Exchange, AllocError> {
    let shown = format!(in alloc; "{}", Ipv4Addr::from_octets(address))?;
    let head = match read_request(alloc, request) {
        Ok(Some((head, _))) => Some(head),
        _ => None,
    };
    Ok(Exchange {
        address: Text::of(alloc, shown.as_bytes())?,
        request: head,
        response: None,
        sent: 0,
        millis: 0,
    })
}

impl Noting {
    pub fn new() -> Noting {
        Noting {
            exchange: None,
            since: 0,
            has_begun: false,
            head_left: 0,
        }
    }

    /// A request begins, of which these are the bytes, and the first came at this moment.
    pub fn begin(&mut self, alloc: Global, address: [u8; 4], request: &[u8], since: u64) {
        self.exchange = begun(alloc, address, request).ok();
        self.since = since;
        self.has_begun = false;
        self.head_left = 0;
    }

    /// So many bytes of the piece were sent. The first piece of a response has its whole head.
    pub fn add(&mut self, alloc: Global, piece: &[u8], count: usize, now: u64) {
        let Some(exchange) = &mut self.exchange else {
            return;
        };
        if !self.has_begun {
            self.has_begun = true;
            if let Ok(Some((head, size))) = read_response(alloc, piece) {
                exchange.response = Some(head);
                self.head_left = size;
            }
        }
        let of_head = self.head_left.min(count);
        self.head_left = self.head_left.saturating_sub(of_head);
        let of_body = count.saturating_sub(of_head) as u64;
        exchange.sent = exchange.sent.saturating_add(of_body);
        exchange.millis = now.saturating_sub(self.since);
    }

    /// The exchange that was under way, which is over.
    pub fn end(&mut self) -> Option<Exchange> {
        self.exchange.take()
    }
}
