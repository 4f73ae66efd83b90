//! The decision diagrams of forwarding policies.
#![tactic(auto)]

mod flood;
mod leaves;
mod policies;

pub use policies::forward;
