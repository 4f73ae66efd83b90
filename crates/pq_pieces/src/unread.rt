/// Why a piece was not read.
#[derive(Clone, Copy, Debug, PartialEq, Eq)]
pub enum Unread {
    /// A read failed.
    Failed,
    /// The piece has more bytes than the limit.
    TooLong,
    /// Memory ran out.
    Memory,
}
