// Bytes that go into a room.
ghost use Rattle.std.specs.Prelude.{◌≡◌, ◌+◌, ◌<◌, ◌≤◌, ◌++◌, [], take, drop, min, length};

// Puts the first of the bytes into the room, as many as it has.
pub(crate) fn fill(bytes: &[u8], into: &mut [u8]) -> usize
    ensures count { result ≡ min (length bytes.now) (length into.old) }
    ensures filled { take result into.new ≡ take result bytes.now }
    ensures size { length into.new ≡ length into.old }
{
    let count = bytes.len().min(into.len());
    into[..count].copy_from_slice(&bytes[..count]);
    count
}

// Puts the bytes behind a place into the room, as many as it has, but at most so many.
fn fill_from(bytes: &[u8], at: usize, most: usize, into: &mut [u8]) -> usize
    requires { at ≤ length bytes.now }
    ensures count { result ≡ min (min (length (drop at bytes.now)) (length into.old)) most }
    ensures filled { take result into.new ≡ take result (drop at bytes.now) }
{
    let rest = &bytes[at..];
    fill(&rest[..rest.len().min(most)], into)
}

// The same, and goes behind what was given.
pub(crate) fn give(input: &[u8], at: &mut usize, most: usize, into: &mut [u8]) -> usize
    requires { at.old ≤ length input.now }
    ensures count { result ≡ min (min (length (drop at.old input.now)) (length into.old)) most }
    ensures at { at.new ≡ at.old + result }
    ensures within { at.new ≤ length input.now }
    ensures given { take at.new input.now ≡ take at.old input.now ++ take result into.new }
    ensures left { drop at.old input.now ≡ take result into.new ++ drop at.new input.now }
    ensures filled { take result into.new ≡ take result (drop at.old input.now) }
    ensures behind { drop at.new input.now ≡ drop result (drop at.old input.now) }
    ensures end { result ≡ 0 → 0 < most → 0 < length into.new → drop at.new input.now ≡ [] }
{
    let count = fill_from(input, *at, most, into);
    *at += count;
    count
}
