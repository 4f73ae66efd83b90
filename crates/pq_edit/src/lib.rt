//! Edits: what changes one part or one query of a document.
#![tactic(auto)]

mod edit;
mod lawful;
mod laws;
mod names;
mod puts;
mod reading;
mod removals;

pub use edit::Edit;
pub use lawful::{edited_documents_are_lawful, edits_that_are_read_are_lawful};
pub use laws::has_one_edit;
pub use reading::read_edit_text;
