//! An input in pieces, parted by lines `%%`.
#![tactic(auto)]

mod line;
mod piece;
mod pieces;
mod scan;
mod unread;

pub use piece::Piece;
pub use pieces::Pieces;
pub use unread::Unread;
