//! The classes of the words that the instances of queries tell apart, over letters of packets.
#![tactic(auto)]

mod classes;
mod letters;
mod lowering;

pub use classes::{QueryClasses, query_classes};
