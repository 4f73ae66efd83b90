//! Texts as trees: the statements of a document, and the statement of an edit.
#![tactic(auto)]

mod growth;
mod laws;
mod reading;
mod term;
mod text;

pub use laws::has_one_reading;
pub use reading::{read_edit, read_terms};
pub use term::Term;
pub use text::{class_in_text, text_in};
