//! Laws of edits: what the messages between the installs of documents do to the tables of switches.
#![tactic(auto)]

mod laws;

pub use laws::{deltas_of_documents_are_lawful, edited_tables_implement, edits_turn_tables};
