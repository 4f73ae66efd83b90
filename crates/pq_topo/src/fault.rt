//! Why the names and numbers of a text are refused.
use thiserror::Error;

/// The naming rule that a token breaks.
#[derive(Clone, Copy, Debug, PartialEq, Eq)]
pub enum NameKind {
    /// One more statement, or port, than there may be.
    Many,
    /// What may be once is again.
    Doubled,
    /// A number out of range, or a value of the wrong form for its field.
    BadValue,
    /// No switch has the name.
    UnknownSwitch,
    /// The switch has no such port.
    UnknownPort,
    /// No field has the name.
    UnknownField,
    /// A field that `mod` does not write.
    NotWritable,
    /// A field that is not grouped, or not without a list of values.
    NotListed,
    /// No part has the name.
    UnknownPart,
    /// No query has the name.
    UnknownQuery,
}

/// Why a sentence is refused for what its tokens name.
#[derive(Debug, Drop, Error)]
pub enum NameFault {
    /// The first faulty token begins at this byte, and this is the first rule that it breaks.
    #[error("a name or number at byte {at} breaks a rule")]
    Name { at: usize, kind: NameKind },
    /// There is not enough memory.
    #[error("out of memory")]
    Memory,
}
