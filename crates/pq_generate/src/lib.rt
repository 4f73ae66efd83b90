//! Documents of networks of any size, for measuring: switches in a row, each with a network of its own.
#![tactic(auto)]

mod document;
mod lines;

pub use document::generate;
