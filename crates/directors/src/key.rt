// The word of a key.
ghost use Rattle.std.specs.Prelude.{◌≡◌};
ghost use Rattle.directors.specs.KeyWord.{key_word_of};

use sha2::{Digest, Sha256};
use units::Text;

/// The first eight bytes of the key's SHA-256 digest (FIPS 180-4) as a number, the first byte highest.
#[tactic(auto, unfolding(crate::specs::KeyWord::key_word_of))]
pub fn key_word(key: &Text) -> u64
    ensures { result ≡ key_word_of key.now }
{
    let digest: [u8; 32] = Sha256::digest(key.bytes());
    u64::from_be_bytes([
        digest[0], digest[1], digest[2], digest[3], digest[4], digest[5], digest[6], digest[7],
    ])
}
