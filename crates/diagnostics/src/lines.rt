// The line of a place.
ghost use Rattle.std.specs.Prelude.{◌≡◌, ◌≤◌, length};
ghost use Rattle.std.specs.List.{count_by, after_last, before_first};
ghost use Rattle.diagnostics.specs.Places.{is_feed as one_feed};

fn is_feed(byte: u8) -> bool
    ensures { result ≡ one_feed byte }
{
    byte == b'\n'
}

/// How many line feeds there are.
pub(crate) fn feeds_in(bytes: &[u8]) -> usize
    ensures feeds { result ≡ count_by one_feed bytes.now }
    ensures within { result ≤ length bytes.now }
{
    let mut feeds = 0;
    for byte in bytes {
        if is_feed(*byte) {
            feeds += 1;
        }
    }
    feeds
}

/// The bytes behind the last line feed.
pub(crate) fn behind_feed(bytes: &[u8]) -> &[u8]
    ensures { result.now ≡ after_last one_feed bytes.now }
{
    let mut start = bytes.len();
    while start > 0 && !is_feed(bytes[start - 1]) {
        start -= 1;
    }
    &bytes[start..]
}

/// The bytes up to the first line feed.
pub(crate) fn until_feed(bytes: &[u8]) -> &[u8]
    ensures { result.now ≡ before_first one_feed bytes.now }
{
    let mut end = 0;
    while end < bytes.len() && !is_feed(bytes[end]) {
        end += 1;
    }
    &bytes[..end]
}
