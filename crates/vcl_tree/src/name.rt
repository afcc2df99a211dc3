// Names and where they stand.
use units::Text;

/// A name, and the place of its first byte.
#[derive(Drop)]
pub struct Name {
    pub place: u32,
    pub text: Text,
}
