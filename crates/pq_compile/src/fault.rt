//! Why texts of documents are refused.
use pq_topo::NameKind;
use thiserror::Error;

/// Why a text is not a document. Places are bytes of the text.
#[derive(Debug, Drop, Error)]
pub enum DocumentFault {
    /// What begins at this byte is not a token.
    #[error("no token at byte {at}")]
    Lex { at: usize },
    /// The token that begins at this byte is the first with which no prefix of a sentence ends; or the text ends here,
    /// and all its tokens are a proper prefix of a sentence.
    #[error("no sentence at byte {at}")]
    Syntax { at: usize },
    /// The first faulty token begins at this byte, and this is the first rule that it breaks.
    #[error("a name or number at byte {at} breaks a rule")]
    Name { at: usize, kind: NameKind },
    /// There is not enough memory.
    #[error("out of memory")]
    Memory,
}
