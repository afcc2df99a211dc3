// How fast a client sends a request and takes a response.
ghost use Rattle.std.specs.Prelude.{◌≡◌};
ghost use Rattle.edge.specs.Pace.{request_millis, is_slow, behind_write};

/// How many milliseconds a request may take from its first byte on, and once more for each part of an upload.
const PART_MILLIS: u64 = 30_000;

/// How many bytes of a request come with each of these times.
const PART_BYTES: u64 = 524_288;

/// How many milliseconds writes take at least until it is looked how much was taken.
const TAKING_MILLIS: u64 = 30_000;

/// How many milliseconds a request may take of which so many bytes came: 30 s, and 30 s more for each 512 KiB.
pub(crate) fn request_millis(received: u64) -> u64
    ensures { result ≡ request_millis received }
{
    PART_MILLIS + received / PART_BYTES * PART_MILLIS
}

/// What a client has taken in the writes since the last look, and how many milliseconds these took.
#[derive(Clone, Copy, Debug, PartialEq, Eq)]
pub(crate) struct Taking {
    pub millis: u64,
    pub bytes: u64,
}

impl Taking {
    pub fn new() -> Taking
        ensures { result ≡ record { millis = 0; bytes = 0 } }
    {
        Taking {
            millis: 0,
            bytes: 0,
        }
    }

    /// Whether it took less than 1,000 bytes a second, over writes of 30 s or more.
    pub fn is_slow(&self) -> bool
        ensures { result ≡ is_slow self.now }
    {
        self.millis >= TAKING_MILLIS && self.bytes < self.millis
    }

    /// Counts a write that took so many milliseconds, and in which so many bytes were taken. Behind one that brings the time to 30 s, and
    /// in which enough was taken, it begins anew.
    pub fn add(&mut self, millis: u64, bytes: u64)
        ensures { self.new ≡ behind_write self.old millis bytes }
    {
        if self.millis >= TAKING_MILLIS {
            *self = Taking::new();
        }
        self.millis = self.millis.saturating_add(millis);
        self.bytes = self.bytes.saturating_add(bytes);
    }
}
