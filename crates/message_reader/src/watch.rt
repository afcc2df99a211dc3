// When the bytes of a head are worth a try.
ghost use Rattle.std.specs.Prelude.{◌≡◌, ◌<◌, length, false};

use http_heads::MAX_HEAD;

// Where a scan for the empty line behind a head stands.
#[derive(Clone, Copy, PartialEq, Eq)]
enum Scan {
    /// Only line ends have come.
    Before,
    Line,
    LineEnd,
    /// A CR behind a line's end.
    Return,
    EmptyLine,
}

fn scanned(scan: Scan, byte: u8) -> Scan {
    match (scan, byte) {
        (Scan::EmptyLine, _) => Scan::EmptyLine,
        (Scan::Before, b'\r' | b'\n') => Scan::Before,
        (Scan::LineEnd | Scan::Return, b'\n') => Scan::EmptyLine,
        (Scan::LineEnd, b'\r') => Scan::Return,
        (_, b'\n') => Scan::LineEnd,
        _ => Scan::Line,
    }
}

/// Which bytes were seen. Each is looked at once, and the lengths at which a head is tried double where no empty line
/// comes, so that the cost is linear however the bytes are cut.
#[derive(Drop)]
pub struct Watch {
    scan: Scan,
    seen: usize,
    next: usize,
}

impl Watch {
    pub fn new() -> Watch {
        Watch {
            scan: Scan::Before,
            seen: 0,
            next: 1,
        }
    }

    // A head mostly comes whole, and then its last bytes alone say that it ended. Behind line ends alone they may be further ones,
    // so there only the first bytes of all are taken so.
    fn behind(&self, new: &[u8]) -> Scan {
        if new.ends_with(b"\n\r\n") && (self.seen == 0 || self.scan != Scan::Before) {
            Scan::EmptyLine
        } else {
            new.iter()
                .fold(self.scan, |scan, byte| scanned(scan, *byte))
        }
    }

    /// Whether a head is worth a try: an empty line has come, or the bytes have doubled, or they are as many as a head
    /// has at most.
    pub fn is_due(&mut self, bytes: &[u8]) -> bool
        ensures { result ≡ false → length bytes.now < 32768 }
    {
        let new = &bytes[self.seen.min(bytes.len())..];
        self.scan = self.behind(new);
        self.seen = bytes.len();
        let is_ended = self.scan == Scan::EmptyLine;
        if is_ended {
            self.scan = Scan::Line;
        }
        let is_due = is_ended || bytes.len() >= self.next || bytes.len() >= MAX_HEAD;
        if is_due {
            self.next = bytes.len().saturating_mul(2);
        }
        is_due
    }
}
