// The words of a line.
use units::Text;

/// A word of a line of a journal.
#[derive(Drop)]
pub enum Word {
    /// A word that names what stands there, as it is.
    Key(Text),
    Short(u16),
    Middle(u32),
    Long(u64),
    Signed(i64),
    Quoted(Text),
}
