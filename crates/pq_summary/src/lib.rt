//! Summaries: how large a network's document and its install are.
#![tactic(auto)]

mod counting;
mod install_length;
mod matching_length;
mod message_length;
mod spelled;
mod summary;

pub use summary::{Counts, Summary};
