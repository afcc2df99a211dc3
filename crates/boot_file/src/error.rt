// Why a server has no VCL to begin under.
use vcl_tree::Refusal;

/// What is wrong with a file of VCL.
#[derive(Clone, Copy, Debug, PartialEq, Eq)]
pub enum BootError {
    /// There is no file of that name.
    Missing,
    /// The file couldn't be read.
    Unreadable,
    /// Its text is refused, for this cause at this byte of it.
    Refused { kind: Refusal, place: u32 },
    NoMemory,
}
