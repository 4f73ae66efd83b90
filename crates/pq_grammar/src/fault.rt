//! Why tokens are refused.
use thiserror::Error;

/// Why tokens are refused.
#[derive(Debug, Drop, Error)]
pub enum SentenceFault {
    /// The tokens are not sentence. The index is that of the first token with which no prefix of a sentence ends, or
    /// the number of tokens where all of them together are a proper prefix of a sentence.
    #[error("the tokens are no sentence at token {index}")]
    Syntax { index: usize },
    /// There is not enough memory.
    #[error("out of memory")]
    Memory,
}
