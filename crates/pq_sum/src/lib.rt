//! The union of the diagrams of parts that come and go, as a balanced tree of unions.
#![tactic(auto)]

mod cells;
mod changes;
mod joined;
mod slots;
mod sum;

pub use sum::Sum;
