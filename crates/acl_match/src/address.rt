// Addresses as texts.
ghost use Rattle.std.specs.Prelude.{◌≡◌, ◌+◌, ◌<◌, length, drop, option_map, IfSome};
ghost use Rattle.acl_match.specs.Address.{is_digit, octet, dot_of, before_dot, address_of};

fn is_digit(byte: u8) -> bool
    ensures { result ≡ is_digit byte }
{
    48 <= byte && byte <= 57
}

// A number to 255, without a zero before others.
fn octet(text: &[u8]) -> Option<u8>
    ensures { result ≡ octet text.now }
{
    match text {
        [a] => { if is_digit(*a) { Some(*a - b'0') } else { None } }
        [a, b] => {
            if is_digit(*a) && *a != b'0' && is_digit(*b) {
                Some((*a - b'0') * 10 + (*b - b'0'))
            } else {
                None
            }
        }
        [a, b, c] => {
            if is_digit(*a) && *a != b'0' && is_digit(*b) && is_digit(*c) {
                let hundreds = u32::from(*a - b'0') * 100;
                let number = hundreds + u32::from(*b - b'0') * 10 + u32::from(*c - b'0');
                if number <= 255 {
                    Some(number as u8)
                } else {
                    None
                }
            } else {
                None
            }
        }
        _ => None,
    }
}

// The place of the first dot.
fn dot_in(text: &[u8]) -> Option<usize>
    ensures value { result ≡ dot_of text.now }
    ensures within { IfSome result (λ k. k < length text.now) }
{
    text.iter().position(|byte| *byte == b'.')
}

// What stands behind the byte at a place.
fn behind(text: &[u8], place: usize) -> &[u8]
    requires { place < length text.now }
    ensures { result.now ≡ drop (place + 1) text.now }
{
    &text[place + 1..]
}

// The number before a dot, and what is behind the dot.
fn before_dot(text: &[u8]) -> Option<(u8, &[u8])>
    ensures { option_map (λ x. (x.0, x.1.now)) result ≡ before_dot text.now }
{
    let dot = dot_in(text)?;
    let number = octet(&text[..dot])?;
    Some((number, behind(text, dot)))
}

/// The address that a text is: four numbers to 255 joined by dots (RFC 3986, section 3.2.2), or `localhost`, which is
/// 127.0.0.1.
pub fn address_of(text: &[u8]) -> Option<[u8; 4]>
    ensures { result ≡ address_of text.now }
{
    if text == b"localhost".as_slice() {
        return Some([127, 0, 0, 1]);
    }
    let (first, text) = before_dot(text)?;
    let (second, text) = before_dot(text)?;
    let (third, text) = before_dot(text)?;
    let fourth = octet(text)?;
    Some([first, second, third, fourth])
}
