// Where a reader is in a body.
use crate::BodyError;

#[derive(Clone, Copy, Debug, PartialEq, Eq)]
pub enum Place {
    /// The body is whole.
    Whole,
    /// So many bytes are left.
    Sized(u64),
    /// All that comes is the body.
    Open,
    /// In a chunk's data, of which so many bytes are left.
    Data { left: u64, spare: u64 },
    /// Between the data of chunks.
    Line(LinePart),
    Refused(BodyError),
}

/// Where a reader is in what stands before a chunk's data and behind it. `spare` bytes may still come of
/// this line and the later ones beyond their digits and ends.
#[derive(Clone, Copy, Debug, PartialEq, Eq)]
pub enum LinePart {
    /// In a chunk's size, of which so many digits have come, with this value.
    Size { digits: u64, size: u64, spare: u64 },
    /// Behind a chunk's size. So many bytes may still come of its line.
    Blanks { size: u64, left: u64, spare: u64 },
    /// In a chunk's extension. So many bytes may still come of its line.
    Extension { size: u64, left: u64, spare: u64 },
    /// The LF of a chunk's line is due.
    LineFeed { size: u64, spare: u64 },
    /// The CR behind a chunk's data is due.
    DataReturn { spare: u64 },
    /// The LF behind it is due.
    DataFeed { spare: u64 },
    /// Where a line of the trailer begins. So many fields and bytes may still come.
    TrailerLine { fields: u64, left: u64 },
    /// In the name of a field of the trailer. So many fields may come behind it.
    FieldName { fields: u64, left: u64 },
    /// In the value of a field of the trailer.
    FieldValue { fields: u64, left: u64 },
    /// The LF of a field's line is due.
    FieldFeed { fields: u64, left: u64 },
    /// The LF of the empty line is due.
    LastFeed,
}
